// The listing of a journal: a line for each record, with its count and its number.
ghost use Rattle.std.specs.Prelude.{◌≡◌, IfOk, string_bytes};
ghost use Rattle.journal.specs.Entries.{entry, entries};
ghost use Rattle.replay.specs.Calls.{call_of};
ghost use Rattle.replay.specs.Drawing.{next_number, answers_left, numbers_from};
ghost use Rattle.replay.specs.Listings.{line_text, lines_text, ending_text, Listed};

use crate::cabinet::answers;
use crate::calls::{call_of, calls_of};
use agent::steps::status;
use journal::reading::read_journal;
use journal::record::Record;
use reader::refusal::Refusal;
use rules::calls::Answer;
use std::alloc::{AllocError, Global};

// A record's number, and the answers that are left for those after it.
fn next_number<'a>(record: Record<'_>, left: &'a [Answer]) -> (u8, &'a [Answer])
    ensures number { result.0 ≡ next_number (call_of (entry «record».entry)) left.now }
    ensures rest { result.1.now ≡ answers_left (call_of (entry «record».entry)) left.now }
{
    if let Err(refusal) = call_of(record) {
        return (refusal.number(), left);
    }
    let [answer, rest @ ..] = left else {
        return (0, left);
    };
    (status(*answer), rest)
}

fn line(heap: Global, count: usize, number: u8) -> Result<String, AllocError>
    ensures { IfOk result (λ s. string_bytes s ≡ line_text count number) }
{
    format!(in heap; "{count} {number}\n")
}

fn end_line(heap: Global, end: Option<(usize, Refusal)>) -> Result<String, AllocError>
    ensures { IfOk result (λ s. string_bytes s ≡ ending_text end) }
{
    let Some((count, refusal)) = end else {
        return Ok(String::new(heap));
    };
    line(heap, count, refusal.number())
}

// A loop of its own: it carries the answers that are left, which no other listing of a journal does.
fn lines(heap: Global, records: &[Record<'_>], answers: &[Answer]) -> Result<String, AllocError>
    ensures { IfOk result (λ s. string_bytes s ≡ lines_text 1 (numbers_from answers.now (entries records.now))) }
{
    let mut text = String::new(heap);
    let mut left = answers;
    for (k, record) in records.iter().enumerate() {
        let (number, rest) = next_number(*record, left);
        let row = line(heap, k + 1, number)?;
        text.push_str(row.as_str())?;
        left = rest;
    }
    Ok(text)
}

/// The listing of a journal that is run through a new cabinet: a line for each record, and one that says why reading
/// stopped, if it did.
pub fn listing(heap: Global, bytes: &[u8]) -> Result<String, AllocError>
    ensures { IfOk result (λ s. Listed bytes.now (string_bytes s)) }
{
    let journal = read_journal(heap, bytes)?;
    let records = journal.records.as_slice();
    let calls = calls_of(heap, records)?;
    let given = answers(heap, calls.as_slice())?;
    let mut text = lines(heap, records, given.as_slice())?;
    let end = end_line(heap, journal.end())?;
    text.push_str(end.as_str())?;
    Ok(text)
}
