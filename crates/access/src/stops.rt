// A layer over any access list, which takes EUI-64s out of all units of the list below.
ghost use Rattle.std.specs.Prelude.{◌≡◌};
ghost use Rattle.access.specs.Stops.{stop_tables, new_stops, stop_model};
ghost use Rattle.std.proofs.Common.{rules};

use crate::Access;
use notes::in_range;
use notes::noting::Notes;
use notes::slots::Table;
use reader::ids::Eui64;
use reader::refusal::Refusal;

const SIZE: usize = 16;

/// Puts a stop in or takes it out, or is a note for the list below.
#[derive(Clone, Copy)]
pub enum StopNote<N> {
    Stop { eui_64: Eui64, stopped: bool },
    Below(N),
}

/// The list below, whom the stop list takes out of it, and who is noted for the next access change.
#[derive(Drop)]
pub struct StopList<A> {
    below: A,
    stopped: Notes<Table<Eui64, SIZE>>,
}

impl<A: Access> StopList<A> {
    pub fn new(below: A) -> StopList<A>
        ensures below { result.below ≡ below }
        ensures tables { stop_tables result ≡ new_stops }
    {
        StopList {
            below,
            stopped: Notes::new(Table::empty(Eui64::NONE)),
        }
    }
}

impl<A: Access> Access for StopList<A> {
    type Note = StopNote<A::Note>;

    ghost model = { stop_model A.Access.model };

    ghost lawful = { Prim.search rules };

    fn admits(&self, eui: Eui64, unit: u16) -> bool {
        self.stopped.find(eui).is_none() && self.below.admits(eui, unit)
    }

    fn change(&mut self) {
        self.below.change();
        self.stopped.settle();
    }

    fn note(&mut self, note: StopNote<A::Note>) -> Result<(), Refusal> {
        match note {
            StopNote::Stop { eui_64, stopped } => {
                in_range(!eui_64.is_none(), eui_64.0)?;
                self.stopped.note(eui_64, stopped)
            }
            StopNote::Below(below) => self.below.note(below),
        }
    }
}
