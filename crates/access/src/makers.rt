// A list of makers, whose stations are admitted to the units of a mask.
ghost use Rattle.std.specs.Prelude.{◌≡◌};
ghost use Rattle.access.specs.Makers.{maker_range, maker_of, in_mask, maker_tables, new_makers, maker_model};
ghost use Rattle.std.proofs.Common.{rules};

use crate::{Access, LAST_UNIT};
use notes::in_range;
use notes::keyed::Keyed;
use notes::noting::Notes;
use notes::slots::Table;
use reader::ids::Eui64;
use reader::refusal::Refusal;

const SIZE: usize = 16;

const LAST_MAKER: u32 = 0xFF_FFFF;

const ALL_UNITS: u8 = 15;

/// A maker, the top 24 bits of its EUI-64s, with a mask of the units that they may use: bit 0 for
/// unit 0. A mask of 0 takes the maker out.
#[derive(Clone, Copy)]
pub struct MakerNote {
    pub maker: u32,
    pub units: u8,
}

/// The makers that are admitted, and those noted for the next access change.
#[derive(Clone, Copy)]
pub struct MakerList {
    admitted: Notes<Table<MakerNote, SIZE>>,
}

impl Keyed for MakerNote {
    type Key = u32;

    ghost key = { λ n. n.maker };

    fn key(&self) -> u32 {
        self.maker
    }
}

impl MakerNote {
    fn in_range(self) -> Result<(), Refusal>
        ensures { result ≡ maker_range self }
    {
        let MakerNote { maker, units } = self;
        in_range(maker <= LAST_MAKER, u64::from(maker))?;
        in_range(units <= ALL_UNITS, u64::from(units))
    }
}

fn maker_of(eui: Eui64) -> u32
    ensures { result ≡ maker_of eui }
{
    (eui.0 >> 40) as u32
}

fn in_mask(mask: u8, unit: u16) -> bool
    ensures { result ≡ in_mask mask unit }
{
    unit <= LAST_UNIT && (mask >> unit) % 2 == 1
}

impl MakerList {
    pub fn new() -> MakerList
        ensures { maker_tables result ≡ new_makers }
    {
        let free = MakerNote { maker: 0, units: 0 };
        MakerList {
            admitted: Notes::new(Table::empty(free)),
        }
    }
}

impl Access for MakerList {
    type Note = MakerNote;

    ghost model = { maker_model };

    ghost lawful = { Prim.search rules };

    fn admits(&self, eui: Eui64, unit: u16) -> bool {
        let entry = self.admitted.find(maker_of(eui));
        !eui.is_none() && entry.is_some_and(|n| in_mask(n.units, unit))
    }

    fn change(&mut self) {
        self.admitted.settle();
    }

    fn note(&mut self, note: MakerNote) -> Result<(), Refusal> {
        note.in_range()?;
        self.admitted.note(note, note.units != 0)
    }
}
