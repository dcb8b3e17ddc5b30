// The calls that the records of a journal are.
ghost use Rattle.std.specs.Prelude.{◌≡◌, IfOk};
ghost use Rattle.journal.specs.Entries.{entry, entries};
ghost use Rattle.reader.specs.Requests.{request_read};
ghost use Rattle.replay.specs.Calls.{asked, call_of, calls_of};

use access::pairs::PairNote;
use access::stops::StopNote;
use agent::steps::orb_fits;
use journal::record::Record;
use reader::ids::NodeId;
use reader::refusal::Refusal;
use reader::request::Request;
use rules::calls::Call;
use std::alloc::{AllocError, Global};

/// A call of a cabinet that has a stop list over a pair table.
pub type CabinetCall = Call<StopNote<PairNote>>;

fn asked(source: NodeId, orb: &[u8; 32]) -> Result<CabinetCall, Refusal>
    ensures { result ≡ asked source (request_read orb.now) }
{
    let request = Request::read(orb)?;
    Ok(Call::Request(source, request))
}

/// The call that a record is, or why it never reaches the cabinet.
pub fn call_of(record: Record<'_>) -> Result<CabinetCall, Refusal>
    ensures { result ≡ call_of (entry «record».entry) }
{
    match record {
        Record::Request {
            source,
            orb_address,
            orb,
        } => {
            if orb_fits(orb_address) {
                asked(source, orb)
            } else {
                Err(Refusal::OrbAddress(orb_address))
            }
        }
        Record::BusReset => Ok(Call::BusReset),
        Record::NetUpdate => Ok(Call::NetUpdate),
        Record::Gap => Ok(Call::Gap),
        Record::Tick => Ok(Call::Tick),
        Record::AccessChange => Ok(Call::AccessChange),
        Record::BusNote { node, eui_64 } => Ok(Call::BusNote(node, Some(eui_64))),
        Record::PairNote {
            eui_64,
            unit,
            admitted,
        } => Ok(Call::AccessNote(StopNote::Below(PairNote {
            eui_64,
            unit,
            admitted,
        }))),
        Record::StopNote { eui_64, stopped } => {
            Ok(Call::AccessNote(StopNote::Stop { eui_64, stopped }))
        }
    }
}

/// Of many records, those that are calls.
pub(crate) fn calls_of(heap: Global, records: &[Record<'_>]) -> Result<Vec<CabinetCall>, AllocError>
    ensures { IfOk result (λ v. v.items ≡ calls_of (entries records.now)) }
{
    let mut calls = Vec::new(heap);
    for record in records {
        if let Ok(call) = call_of(*record) {
            calls.push(call)?;
        }
    }
    Ok(calls)
}
