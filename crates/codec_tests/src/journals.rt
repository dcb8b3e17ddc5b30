// Journals on examples, at the edges of their numbers, and damaged.
use journal::reading::{LONGEST_JOURNAL, read_journal};
use journal::record::Record;
use journal::trips::{read_then_write, write_then_read};
use journal::writing::{journal_len, write_journal};
use reader::ids::{Eui64, NodeId};
use reader::refusal::Refusal;
use std::alloc::Global;
use std::process::Abort;
use std::test::Fail;
use words::lines::journal_words;

// How many records are read, and why no more are.
fn read(heap: Global, bytes: &[u8]) -> Result<(usize, Option<Refusal>), Fail> {
    let journal = read_journal(heap, bytes)?;
    Ok((journal.records.len(), journal.refusal))
}

fn malformed_at(rt: &impl Abort, heap: Global, bytes: &[u8], place: usize) -> Result<(), Fail> {
    let (_, refusal) = read(heap, bytes)?;
    assert!(rt; refusal == Some(Refusal::MalformedRecord(place)));
    Ok(())
}

fn is_whole(rt: &impl Abort, heap: Global, bytes: &[u8], records: usize) -> Result<(), Fail> {
    let (count, refusal) = read(heap, bytes)?;
    assert!(rt; count == records && refusal.is_none());
    Ok(())
}

fn pair_note(eui_64: Eui64, unit: u16) -> Record<'static> {
    Record::PairNote {
        eui_64,
        unit,
        admitted: true,
    }
}

fn bus_note(node: NodeId, eui_64: Eui64) -> Record<'static> {
    Record::BusNote { node, eui_64 }
}

#[test]
fn numbers_are_written_in_groups_of_seven_bits(rt: HostRuntime) -> Result<(), Fail> {
    let mut records = Vec::new(rt.alloc());
    records.push(pair_note(Eui64(10), 300))?;
    records.push(bus_note(NodeId(0xFFC2), Eui64(1)))?;
    let mut area = [0xAA; 12];
    assert!(rt; write_journal(records.as_slice(), &mut area) == Ok(10));
    assert!(rt; area == [8, 10, 0xAC, 2, 1, 7, 0xC2, 0xFF, 3, 1, 0xAA, 0xAA]);
    Ok(())
}

#[test]
fn only_the_shortest_form_is_read(rt: HostRuntime) -> Result<(), Fail> {
    let heap = rt.alloc();
    is_whole(&rt, heap, &[7, 0, 0], 1)?;
    malformed_at(&rt, heap, &[4, 7, 0x80, 0, 1], 1)?;
    malformed_at(&rt, heap, &[4, 7, 0, 0x80, 0], 1)?;
    malformed_at(&rt, heap, &[9, 10, 0x81, 0], 0)
}

#[test]
fn numbers_end_at_their_width(rt: HostRuntime) -> Result<(), Fail> {
    let heap = rt.alloc();
    is_whole(&rt, heap, &[7, 0xFF, 0xFF, 3, 0], 1)?;
    malformed_at(&rt, heap, &[7, 0xFF, 0xFF, 4, 0], 0)?;
    malformed_at(&rt, heap, &[7, 0xFF, 0xFF, 0x83, 0, 0], 0)?;
    is_whole(
        &rt,
        heap,
        &[7, 0, 255, 255, 255, 255, 255, 255, 255, 255, 255, 1],
        1,
    )?;
    malformed_at(
        &rt,
        heap,
        &[7, 0, 255, 255, 255, 255, 255, 255, 255, 255, 255, 2],
        0,
    )?;
    malformed_at(
        &rt,
        heap,
        &[7, 0, 255, 255, 255, 255, 255, 255, 255, 255, 255, 129, 1],
        0,
    )
}

#[test]
fn unknown_kinds_and_marks_are_malformed(rt: HostRuntime) -> Result<(), Fail> {
    let heap = rt.alloc();
    malformed_at(&rt, heap, &[2, 0], 1)?;
    malformed_at(&rt, heap, &[2, 3, 10], 2)?;
    malformed_at(&rt, heap, &[255], 0)?;
    is_whole(&rt, heap, &[8, 1, 3, 0, 9, 1, 1], 2)?;
    malformed_at(&rt, heap, &[8, 1, 3, 2], 0)?;
    malformed_at(&rt, heap, &[9, 1, 2], 0)
}

// Every kind of record once; a request has 36 bytes here, and each of the others the number in the table below.
const SAMPLE: [u8; 56] = [
    4, 5, 2, 3, 6, 7, 0xC2, 0xFF, 3, 1, 8, 10, 1, 1, 9, 10, 0, 1, 0xC0, 0xFF, 3, 0xC0, 0xC6, 4, 1,
    2, 3, 4, 5, 6, 7, 8, 9, 10, 11, 12, 13, 14, 15, 16, 17, 18, 19, 20, 21, 22, 23, 24, 25, 26, 27,
    28, 29, 30, 31, 32,
];

#[test]
fn every_front_of_a_journal_is_whole_or_cut_short(rt: HostRuntime) -> Result<(), Fail> {
    let heap = rt.alloc();
    let ends = [1, 2, 3, 4, 5, 10, 14, 17, 56];
    for cut in 0..=56usize {
        let (count, refusal) = read(heap, &SAMPLE[0..cut])?;
        let whole = ends.iter().filter(|end| **end <= cut);
        let start = ends.iter().rfind(|end| **end <= cut).copied().unwrap_or(0);
        let expected = if start == cut {
            None
        } else {
            Some(Refusal::MalformedRecord(start))
        };
        assert!(rt; count == whole.count() && refusal == expected);
    }
    Ok(())
}

#[test]
fn a_journal_has_at_most_65536_bytes(rt: HostRuntime) -> Result<(), Fail> {
    let heap = rt.alloc();
    let mut bytes = vec![in heap; 4u8; LONGEST_JOURNAL]?;
    is_whole(&rt, heap, bytes.as_slice(), LONGEST_JOURNAL)?;
    bytes.push(4)?;
    let (count, refusal) = read(heap, bytes.as_slice())?;
    assert!(rt; count == 0 && refusal == Some(Refusal::JournalTooLong(65_537)));
    Ok(())
}

#[test]
fn a_journal_is_written_whole_or_not_at_all(rt: HostRuntime) -> Result<(), Fail> {
    let mut records = Vec::new(rt.alloc());
    records.push(Record::Gap)?;
    records.push(bus_note(NodeId(300), Eui64::NONE))?;
    assert!(rt; journal_len(records.as_slice()) == 14);
    let mut short = [0xAA; 13];
    let refused = write_journal(records.as_slice(), &mut short);
    assert!(rt; refused == Err(Refusal::JournalTooLong(14)));
    assert!(rt; short == [0xAA; 13]);
    let mut area = [0xAA; 16];
    let journal = write_then_read(rt.alloc(), records.as_slice(), &mut area)?;
    assert!(rt; journal.records.len() == 2 && journal.refusal.is_none());
    Ok(())
}

#[test]
fn an_accepted_journal_is_written_back_the_same(rt: HostRuntime) -> Result<(), Fail> {
    let mut area = [0xAA; 57];
    let copied = read_then_write(rt.alloc(), &SAMPLE, &mut area)?;
    assert!(rt; copied == Ok(56));
    assert!(rt; area.starts_with(&SAMPLE) && area[56] == 0xAA);
    let cut = read_then_write(rt.alloc(), &SAMPLE[0..55], &mut area)?;
    assert!(rt; cut == Err(Refusal::MalformedRecord(17)));
    Ok(())
}

#[test]
fn a_journal_in_words_ends_with_what_is_wrong(rt: HostRuntime) -> Result<(), Fail> {
    let text = journal_words(rt.alloc(), &[4, 5, 10])?;
    assert_eq!(rt;
        text.as_str(),
        "    1  gap\n    2  tick\n    3  refused        malformed record (39): none begins at byte 2\n"
    );
    Ok(())
}
