// The trace of a journal that is run through a new cabinet.
ghost use Rattle.std.specs.Prelude.{◌≡◌, IfOk, length, string_bytes};
ghost use Rattle.tables.specs.Books.{book_of};
ghost use Rattle.journal.specs.Entries.{entry, entries};
ghost use Rattle.replay.specs.Driving.{data_of};
ghost use Rattle.accounts.specs.Journeys.{after_all, told_all};
ghost use Rattle.accounts.specs.Traces.{after_entry, effect_text, record_trace, end_trace, Traced};

use crate::records::{Telling, told_records};
use effects::trace::trace_line;
use journal::reading::{Journal, read_journal};
use journal::record::Record;
use reader::refusal::Refusal;
use replay::driving::{Cabinet, Effect};
use std::alloc::{AllocError, Global};
use tables::tables::Tables;

// All that it did, for programs.
#[derive(Clone, Copy)]
struct AsTrace;

impl Telling for AsTrace {
    ghost text = { λ _ count _ did book. effect_text count did book };

    fn tell(
        &self,
        heap: Global,
        count: usize,
        _record: Record<'_>,
        effect: Effect,
        tables: &Tables,
    ) -> Result<String, AllocError> {
        let refusal = effect.answer.err();
        let response = effect.response();
        // A call in each case: with a slice chosen first, no proof was found for the loan.
        match effect.status {
            Some(block) => trace_line(heap, count, refusal, response, &block, tables),
            None => trace_line(heap, count, refusal, response, &[], tables),
        }
    }
}

// Why reading stopped, if it did.
fn end_line(heap: Global, journal: &Journal<'_>, tables: &Tables) -> Result<String, AllocError>
    ensures { IfOk result (λ s. string_bytes s ≡ end_trace (length (entries journal.now.records.items)) journal.now.refusal (book_of tables.now)) }
{
    match journal.end() {
        None => Ok(String::new(heap)),
        // Both numbers stand here as in the definition: that `{count}` is 0, or `refusal.number()` 40, was not proved.
        Some((_, Refusal::JournalTooLong(length))) => format!(in heap; "0 40 - {length}\n"),
        Some((count, refusal)) => trace_line(heap, count, Some(refusal), &[], &[], tables),
    }
}

/// All that each record of a journal did to a new cabinet, one line a record, and one that says why reading stopped, if
/// it did.
pub fn trace_journal(heap: Global, bytes: &[u8]) -> Result<String, AllocError>
    ensures { IfOk result (λ s. Traced bytes.now (string_bytes s)) }
{
    let journal = read_journal(heap, bytes)?;
    let mut cabinet = Cabinet::new();
    let records = journal.records.as_slice();
    let mut text = told_records(&AsTrace, heap, &mut cabinet, records)?;
    let end = end_line(heap, &journal, cabinet.tables())?;
    text.push_str(end.as_str())?;
    Ok(text)
}
