// Tables of notes: what holds now, and what is noted for the next change.
#![tactic(auto)]

ghost use Rattle.std.specs.Prelude.{◌≡◌};
ghost use Rattle.notes.specs.Answers.{in_range};

pub mod keyed;
pub mod noting;
pub mod slots;
mod table;

use reader::refusal::Refusal;

/// A value is refused where it does not fit.
pub fn in_range(fits: bool, value: u64) -> Result<(), Refusal>
    ensures { result ≡ in_range fits value }
{
    if fits {
        Ok(())
    } else {
        Err(Refusal::OutOfRange(value))
    }
}
