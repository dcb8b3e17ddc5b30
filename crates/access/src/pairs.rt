// A list of the very pairs of EUI-64 and unit that are admitted.
ghost use Rattle.std.specs.Prelude.{◌≡◌};
ghost use Rattle.access.specs.Pairs.{pair_range, pair_tables, new_pairs, pair_model};
ghost use Rattle.std.proofs.Common.{rules};

use crate::{Access, LAST_UNIT};
use notes::in_range;
use notes::keyed::Keyed;
use notes::noting::Notes;
use notes::slots::Table;
use reader::ids::Eui64;
use reader::refusal::Refusal;

const SIZE: usize = 64;

/// Puts a pair of EUI-64 and unit in, or takes it out.
#[derive(Clone, Copy)]
pub struct PairNote {
    pub eui_64: Eui64,
    pub unit: u16,
    pub admitted: bool,
}

#[derive(Clone, Copy, PartialEq, Eq)]
pub struct Pair {
    eui: Eui64,
    unit: u16,
}

/// The pairs that are admitted, and those noted for the next access change.
#[derive(Clone, Copy)]
pub struct PairTable {
    admitted: Notes<Table<Pair, SIZE>>,
}

impl Keyed for Pair {
    type Key = Pair;

    ghost key = { λ p. p };

    fn key(&self) -> Pair {
        *self
    }

    // Field by field where they lie: most entries differ in the first.
    fn is_for(&self, wanted: &Pair) -> bool {
        self.eui == wanted.eui && self.unit == wanted.unit
    }
}

impl Pair {
    fn in_range(self) -> Result<(), Refusal>
        ensures { result ≡ pair_range self }
    {
        in_range(!self.eui.is_none(), self.eui.0)?;
        in_range(self.unit <= LAST_UNIT, u64::from(self.unit))
    }
}

impl PairTable {
    pub fn new() -> PairTable
        ensures { pair_tables result ≡ new_pairs }
    {
        let free = Pair {
            eui: Eui64::NONE,
            unit: 0,
        };
        PairTable {
            admitted: Notes::new(Table::empty(free)),
        }
    }
}

impl Access for PairTable {
    type Note = PairNote;

    ghost model = { pair_model };

    ghost lawful = { Prim.search rules };

    fn admits(&self, eui: Eui64, unit: u16) -> bool {
        self.admitted.find(Pair { eui, unit }).is_some()
    }

    fn change(&mut self) {
        self.admitted.settle();
    }

    fn note(&mut self, note: PairNote) -> Result<(), Refusal> {
        let pair = Pair {
            eui: note.eui_64,
            unit: note.unit,
        };
        pair.in_range()?;
        self.admitted.note(pair, note.admitted)
    }
}
