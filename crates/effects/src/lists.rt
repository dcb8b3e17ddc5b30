// Rows of a table as text.
ghost use Rattle.std.specs.Prelude.{◌<◌, ℕ, IfOk, string_bytes};
ghost use Rattle.effects.specs.Lists.{Joined};

use std::alloc::{AllocError, Global};

// The parts of the places that have one, with a separator before all but the first; where none has, what is told then.
pub(crate) fn joined<F: Fn(usize) -> Result<Option<String>, AllocError>>(
    heap: Global,
    places: usize,
    separator: &str,
    none: &str,
    part: F,
) -> Result<String, AllocError>
    requires { (place : ℕ) → place < places → F.pre part place }
    ensures { IfOk result (λ s. Joined (λ t. string_bytes t) (F.post part) places separator.now none.now (string_bytes s)) }
{
    let mut text = String::new(heap);
    // A part may be empty, so the text alone does not tell whether one came before.
    let mut first = true;
    // By place: a row tells its number, and the tables give a row by its place.
    for place in 0..places {
        if let Some(row) = part(place)? {
            let before = if first { "" } else { separator };
            write!(text, "{before}{row}")?;
            first = false;
        }
    }
    if first {
        text.push_str(none)?;
    }
    Ok(text)
}
