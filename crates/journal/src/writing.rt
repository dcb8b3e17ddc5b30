// Writing a journal into a lent area: all of it, or nothing.
ghost use Rattle.std.specs.Prelude.{◌≡◌, ◌+◌, ◌^◌, ◌<◌, ◌≤◌, [], ◌∷◌, ◌++◌, length};
ghost use Rattle.journal.specs.Entries.{entry, entries, entry_code, journal_code, Within};
ghost use Rattle.journal.specs.Journals.{AllWithin, written_answer, written_area};
ghost use Rattle.journal.specs.Numbers.{code};
ghost use Rattle.journal.specs.Areas.{put, Room, Wrote};

use crate::kinds;
use crate::reading::LONGEST_JOURNAL;
use crate::record::Record;
use reader::refusal::Refusal;

fn number_len(n: u64) -> usize
    ensures value { result ≡ length (code n) }
    ensures bound { result ≤ 10 }
    ensures fits { n < 2 ^ 64 }
{
    if n < 128 { 1 } else { 1 + number_len(n / 128) }
}

#[tactic(auto, using(crate::proofs::Codes::code_half))]
fn half_len(n: u16) -> usize
    ensures value { result ≡ length (code n) }
    ensures bound { result ≤ 3 }
    ensures fits { n < 2 ^ 16 }
{
    number_len(u64::from(n))
}

fn orb_len(orb: &[u8; 32]) -> usize
    ensures value { result ≡ length orb.now }
    ensures whole { result ≡ 32 }
{
    orb.len()
}

/// How many bytes a record takes.
pub fn record_len(record: Record<'_>) -> usize
    ensures value { result ≡ length (entry_code (entry «record».entry)) }
    ensures bound { result ≤ 46 }
    ensures within { Within (entry «record».entry) }
{
    match record {
        Record::Request {
            source,
            orb_address,
            orb,
        } => 1 + half_len(source.0) + number_len(orb_address) + orb_len(orb),
        Record::BusNote { node, eui_64 } => 1 + half_len(node.0) + number_len(eui_64.0),
        Record::PairNote { eui_64, unit, .. } => 2 + number_len(eui_64.0) + half_len(unit),
        Record::StopNote { eui_64, .. } => 2 + number_len(eui_64.0),
        Record::BusReset | Record::NetUpdate | Record::Gap | Record::Tick | Record::AccessChange =>
            1,
    }
}

// A place in a lent area, behind what is written: the area is the caller's and no `Vec`, so the place is counted.
#[derive(Drop)]
struct Cursor<'a> {
    area: &'a mut [u8],
    at: usize,
}

impl Cursor<'_> {
    fn byte(&mut self, byte: u8)
        requires { Room self.old (byte ∷ []) }
        ensures { Wrote self.old self.new (byte ∷ []) }
    {
        self.area[self.at] = byte;
        self.at += 1;
    }

    fn number(&mut self, n: u64)
        requires { Room self.old (code n) }
        ensures { Wrote self.old self.new (code n) }
    {
        if n < 128 {
            return self.byte(n as u8);
        }
        self.byte((n % 128 + 128) as u8);
        self.number(n / 128);
    }

    fn orb(&mut self, orb: &[u8; 32])
        requires { Room self.old orb.now }
        ensures { Wrote self.old self.new orb.now }
    {
        self.area[self.at..self.at + 32].copy_from_slice(orb);
        self.at += 32;
    }

    fn record(&mut self, record: Record<'_>)
        requires { Room self.old (entry_code (entry «record»)) }
        ensures { Wrote self.old self.new (entry_code (entry «record».entry)) }
    {
        match record {
            Record::Request {
                source,
                orb_address,
                orb,
            } => {
                self.byte(kinds::REQUEST);
                self.number(u64::from(source.0));
                self.number(orb_address);
                self.orb(orb);
            }
            Record::BusReset => self.byte(kinds::BUS_RESET),
            Record::NetUpdate => self.byte(kinds::NET_UPDATE),
            Record::Gap => self.byte(kinds::GAP),
            Record::Tick => self.byte(kinds::TICK),
            Record::AccessChange => self.byte(kinds::ACCESS_CHANGE),
            Record::BusNote { node, eui_64 } => {
                self.byte(kinds::BUS_NOTE);
                self.number(u64::from(node.0));
                self.number(eui_64.0);
            }
            Record::PairNote {
                eui_64,
                unit,
                admitted,
            } => {
                self.byte(kinds::PAIR_NOTE);
                self.number(eui_64.0);
                self.number(u64::from(unit));
                self.number(u64::from(admitted));
            }
            Record::StopNote { eui_64, stopped } => {
                self.byte(kinds::STOP_NOTE);
                self.number(eui_64.0);
                self.number(u64::from(stopped));
            }
        }
    }
}

/// How many bytes the records take, one after another.
pub fn journal_len(records: &[Record<'_>]) -> usize
    ensures value { result ≡ length (journal_code (entries records.now)) }
    ensures within { AllWithin (entries records.now) }
{
    let mut total = 0;
    for record in records {
        total += record_len(*record);
    }
    total
}

// Records whose bytes fit the area.
fn write_records(records: &[Record<'_>], area: &mut [u8])
    requires { length (journal_code (entries records.now)) ≤ length area.old }
    ensures { area.new ≡ put area.old 0 (journal_code (entries records.now)) }
{
    let mut cursor = Cursor { area, at: 0 };
    for record in records {
        cursor.record(*record);
    }
}

/// Writes the records at the front of the area, and gives the number of bytes.
/// Where they do not fit the area, or are more than a journal may have, the area stays as it was.
pub fn write_journal(records: &[Record<'_>], area: &mut [u8]) -> Result<usize, Refusal>
    ensures value { result ≡ written_answer (entries records.now) area.old }
    ensures after { area.new ≡ written_area (entries records.now) area.old }
    ensures within { AllWithin (entries records.now) }
{
    let length = journal_len(records);
    if length > LONGEST_JOURNAL || length > area.len() {
        return Err(Refusal::JournalTooLong(length));
    }
    write_records(records, area);
    Ok(length)
}
