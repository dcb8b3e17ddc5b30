// Both round trips: what is written reads back, and what is read is written back.
ghost use Rattle.std.specs.Prelude.{◌≡◌, false, is_ok, IfOk};
ghost use Rattle.journal.specs.Entries.{entries};
ghost use Rattle.journal.specs.Trips.{ReadBack, WrittenBack};

use crate::reading::{Journal, read_journal};
use crate::record::Record;
use crate::writing::write_journal;
use reader::refusal::Refusal;
use std::alloc::{AllocError, Global};

/// Writes records into the area and reads them again: they are the same records.
pub fn write_then_read<'a>(
    heap: Global,
    records: &[Record<'_>],
    area: &'a mut [u8],
) -> Result<Journal<'a>, AllocError>
    ensures { IfOk result (λ j. ReadBack (entries records.now) area.old (entries j.records.items) j.refusal) }
{
    match write_journal(records, area) {
        Ok(end) => read_journal(heap, &area[0..end]),
        Err(refusal) => Ok(Journal {
            records: Vec::new(heap),
            refusal: Some(refusal),
        }),
    }
}

/// Reads a journal and writes its records into the area: they are the same bytes.
pub fn read_then_write(
    heap: Global,
    bytes: &[u8],
    area: &mut [u8],
) -> Result<Result<usize, Refusal>, AllocError>
    ensures copied { IfOk result (λ w. WrittenBack bytes.now area.old w area.new) }
    ensures kept { is_ok result ≡ false → area.new ≡ area.old }
{
    let journal = read_journal(heap, bytes)?;
    if let Some(refusal) = journal.refusal {
        return Ok(Err(refusal));
    }
    Ok(write_journal(journal.records.as_slice(), area))
}
