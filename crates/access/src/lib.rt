// What every access list answers, by its meaning: a set of pairs of EUI-64 and unit.
#![tactic(auto)]

ghost use Rattle.std.specs.Prelude.{◌≡◌};
ghost use Rattle.access.specs.Meaning.{AccessModel, Lawful};

pub mod makers;
pub mod pairs;
pub mod stops;

use reader::ids::Eui64;
use reader::refusal::Refusal;

/// Units are numbered from 0.
pub const LAST_UNIT: u16 = 3;

/// An access list, known only by its model. The question leaves it as it is; an access change and
/// a note make of it what the model says.
pub trait Access {
    /// What can be noted for the next access change.
    type Note;

    ghost model: { AccessModel Self Self.Note };

    /// Whether an EUI-64 may log in to a unit.
    fn admits(&self, eui: Eui64, unit: u16) -> bool
        ensures { result ≡ model.admits self.now eui unit };

    /// An access change: the notes become true.
    fn change(&mut self)
        ensures { model.Changes self.old self.new };

    /// Notes something for the next access change.
    fn note(&mut self, note: Self::Note) -> Result<(), Refusal>
        ensures { model.Notes self.old note result self.new };

    ghost lawful: { Lawful model };
}
