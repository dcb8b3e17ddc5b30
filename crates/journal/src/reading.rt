// Reading a journal: one record after another, each in exactly one form.
ghost use Rattle.std.specs.Prelude.{◌≡◌, IfOk, MatchOption, length};
ghost use Rattle.journal.specs.Entries.{entry, entries, EntryAt, NoEntry};
ghost use Rattle.journal.specs.Journals.{Reads, ending};
ghost use Rattle.journal.specs.Reading.{entry_seen, entry_at, request_at, bus_note_at, pair_note_at, stop_note_at};

use crate::kinds;
use crate::numbers::{read_half, read_mark, read_number};
use crate::record::Record;
use reader::ids::{Eui64, NodeId};
use reader::refusal::Refusal;
use std::alloc::{AllocError, Global};

/// No journal has more bytes.
pub const LONGEST_JOURNAL: usize = 65_536;

fn read_request(bytes: &[u8]) -> Option<(Record<'_>, &[u8])>
    ensures { entry_seen result ≡ request_at bytes.now }
{
    let (source, rest) = read_half(bytes)?;
    let (orb_address, rest) = read_number(rest, 64)?;
    let (orb, rest) = rest.split_first_chunk()?;
    let source = NodeId(source);
    Some((
        Record::Request {
            source,
            orb_address,
            orb,
        },
        rest,
    ))
}

fn read_bus_note(bytes: &[u8]) -> Option<(Record<'_>, &[u8])>
    ensures { entry_seen result ≡ bus_note_at bytes.now }
{
    let (node, rest) = read_half(bytes)?;
    let (eui_64, rest) = read_number(rest, 64)?;
    let node = NodeId(node);
    let eui_64 = Eui64(eui_64);
    Some((Record::BusNote { node, eui_64 }, rest))
}

fn read_pair_note(bytes: &[u8]) -> Option<(Record<'_>, &[u8])>
    ensures { entry_seen result ≡ pair_note_at bytes.now }
{
    let (eui_64, rest) = read_number(bytes, 64)?;
    let (unit, rest) = read_half(rest)?;
    let (admitted, rest) = read_mark(rest)?;
    let eui_64 = Eui64(eui_64);
    Some((
        Record::PairNote {
            eui_64,
            unit,
            admitted,
        },
        rest,
    ))
}

fn read_stop_note(bytes: &[u8]) -> Option<(Record<'_>, &[u8])>
    ensures { entry_seen result ≡ stop_note_at bytes.now }
{
    let (eui_64, rest) = read_number(bytes, 64)?;
    let (stopped, rest) = read_mark(rest)?;
    let eui_64 = Eui64(eui_64);
    Some((Record::StopNote { eui_64, stopped }, rest))
}

fn read_kind(bytes: &[u8]) -> Option<(Record<'_>, &[u8])>
    ensures { entry_seen result ≡ entry_at bytes.now }
{
    match bytes {
        [kinds::REQUEST, rest @ ..] => read_request(rest),
        [kinds::BUS_RESET, rest @ ..] => Some((Record::BusReset, rest)),
        [kinds::NET_UPDATE, rest @ ..] => Some((Record::NetUpdate, rest)),
        [kinds::GAP, rest @ ..] => Some((Record::Gap, rest)),
        [kinds::TICK, rest @ ..] => Some((Record::Tick, rest)),
        [kinds::ACCESS_CHANGE, rest @ ..] => Some((Record::AccessChange, rest)),
        [kinds::BUS_NOTE, rest @ ..] => read_bus_note(rest),
        [kinds::PAIR_NOTE, rest @ ..] => read_pair_note(rest),
        [kinds::STOP_NOTE, rest @ ..] => read_stop_note(rest),
        _ => None,
    }
}

/// The record at the front, and the bytes after it; none where no record stands there.
pub fn read_record(bytes: &[u8]) -> Option<(Record<'_>, &[u8])>
    ensures { MatchOption result (NoEntry bytes.now) (λ p. EntryAt bytes.now (entry p.0) p.1.now) }
{
    read_kind(bytes)
}

/// A journal that was read: its records, and why reading stopped before its end, if it did.
#[derive(Drop)]
pub struct Journal<'a> {
    pub records: Vec<Record<'a>>,
    pub refusal: Option<Refusal>,
}

impl Journal<'_> {
    /// Why reading stopped before the journal's end, and the count of the record at which it did; a journal that is too
    /// long has no record, and the count 0.
    pub fn end(&self) -> Option<(usize, Refusal)>
        ensures { result ≡ ending (length (entries self.now.records.items)) self.now.refusal }
    {
        let refusal = self.refusal?;
        let count = match refusal {
            Refusal::JournalTooLong(_) => 0,
            _ => self.records.len() + 1,
        };
        Some((count, refusal))
    }
}

/// All records of a journal, up to the first that is malformed.
pub fn read_journal(heap: Global, bytes: &[u8]) -> Result<Journal<'_>, AllocError>
    ensures { IfOk result (λ j. Reads bytes.now (entries j.records.items) j.refusal) }
{
    let mut records = Vec::new(heap);
    if bytes.len() > LONGEST_JOURNAL {
        let refusal = Some(Refusal::JournalTooLong(bytes.len()));
        return Ok(Journal { records, refusal });
    }
    // No iterator over the records: the place of a malformed one is told by the bytes that are left.
    let mut rest = bytes;
    while !rest.is_empty() {
        let Some((record, after)) = read_record(rest) else {
            let refusal = Some(Refusal::MalformedRecord(bytes.len() - rest.len()));
            return Ok(Journal { records, refusal });
        };
        records.push(record)?;
        rest = after;
    }
    Ok(Journal {
        records,
        refusal: None,
    })
}
