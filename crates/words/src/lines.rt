// A journal in words, a line for each record.
ghost use Rattle.std.specs.Prelude.{◌≡◌, IfOk, length, string_bytes};
ghost use Rattle.journal.specs.Entries.{entry, entries};
ghost use Rattle.words.specs.Lines.{asked_text, bus_note_text, entry_text, line_text, lines_text, end_text, Told};

use crate::requests::RequestWords;
use journal::reading::{Journal, read_journal};
use journal::record::Record;
use reader::ids::{Eui64, NodeId};
use reader::request::Request;
use std::alloc::{AllocError, Global};

fn request_words(
    heap: Global,
    source: NodeId,
    orb_address: u64,
    orb: &[u8; 32],
) -> Result<String, AllocError>
    ensures { IfOk result (λ s. string_bytes s ≡ asked_text source orb_address orb.now) }
{
    let address = Eui64(orb_address);
    match Request::read(orb) {
        Ok(request) => format!(in heap;
            "request        from {source}, ORB {address}: {}",
            RequestWords(request)
        ),
        Err(refusal) => format!(in heap; "request        from {source}, ORB {address}: {refusal}"),
    }
}

fn bus_note_words(heap: Global, node: NodeId, eui_64: Eui64) -> Result<String, AllocError>
    ensures { IfOk result (λ s. string_bytes s ≡ bus_note_text node eui_64) }
{
    if eui_64.is_none() {
        return format!(in heap; "bus note       {node} shows nobody");
    }
    format!(in heap; "bus note       {node} shows {eui_64}")
}

/// What happened, as a phrase.
pub fn record_words(heap: Global, record: Record<'_>) -> Result<String, AllocError>
    ensures { IfOk result (λ s. string_bytes s ≡ entry_text (entry «record».entry)) }
{
    match record {
        Record::Request {
            source,
            orb_address,
            orb,
        } => request_words(heap, source, orb_address, orb),
        Record::BusReset => String::from_str(heap, "bus reset"),
        Record::NetUpdate => String::from_str(heap, "net update"),
        Record::Gap => String::from_str(heap, "gap"),
        Record::Tick => String::from_str(heap, "tick"),
        Record::AccessChange => String::from_str(heap, "access change"),
        Record::BusNote { node, eui_64 } => bus_note_words(heap, node, eui_64),
        Record::PairNote {
            eui_64,
            unit,
            admitted,
        } => {
            let put = if admitted { "in" } else { "out" };
            format!(in heap; "pair note      {eui_64}, unit {unit}, {put}")
        }
        Record::StopNote { eui_64, stopped } => {
            let put = if stopped { "in" } else { "out" };
            format!(in heap; "stop note      {eui_64}, {put}")
        }
    }
}

/// A count and some words.
#[tactic(auto, using(crate::proofs::Padding::right_of_five))]
pub fn line(heap: Global, count: usize, words: &str) -> Result<String, AllocError>
    ensures { IfOk result (λ s. string_bytes s ≡ line_text count words.now) }
{
    format!(in heap; "{count:>5}  {words}\n")
}

/// A record's line.
pub fn record_line(heap: Global, count: usize, record: Record<'_>) -> Result<String, AllocError>
    ensures { IfOk result (λ s. string_bytes s ≡ line_text count (entry_text (entry «record».entry))) }
{
    let words = record_words(heap, record)?;
    line(heap, count, words.as_str())
}

/// A journal in words: a line for each record, and one that says why reading stopped, if it did.
pub fn journal_words(heap: Global, bytes: &[u8]) -> Result<String, AllocError>
    ensures { IfOk result (λ s. Told bytes.now (string_bytes s)) }
{
    let journal = read_journal(heap, bytes)?;
    let mut text = records_words(heap, journal.records.as_slice())?;
    let end = end_words(heap, &journal)?;
    text.push_str(end.as_str())?;
    Ok(text)
}

fn records_words(heap: Global, records: &[Record<'_>]) -> Result<String, AllocError>
    ensures { IfOk result (λ s. string_bytes s ≡ lines_text 1 (entries records.now)) }
{
    let mut text = String::new(heap);
    for (k, record) in records.iter().enumerate() {
        let row = record_line(heap, k + 1, *record)?;
        text.push_str(row.as_str())?;
    }
    Ok(text)
}

/// A line that says why reading stopped, if it did.
pub fn end_words(heap: Global, journal: &Journal<'_>) -> Result<String, AllocError>
    ensures { IfOk result (λ s. string_bytes s ≡ end_text (length (entries journal.now.records.items)) journal.now.refusal) }
{
    let Some((count, refusal)) = journal.end() else {
        return Ok(String::new(heap));
    };
    let why = format!(in heap; "refused        {refusal}")?;
    line(heap, count, why.as_str())
}
