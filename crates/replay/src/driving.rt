// A cabinet that is driven by records, one after another.
ghost use Rattle.std.specs.Prelude.{◌≡◌};
ghost use Rattle.tables.specs.Books.{book_of};
ghost use Rattle.journal.specs.Entries.{request, entry};
ghost use Rattle.replay.specs.Cabinets.{new_cabinet};
ghost use Rattle.replay.specs.Calls.{call_of};
ghost use Rattle.replay.specs.Driving.{data_of, quiet, response_bytes, status_block, signalled, told_effect, effect};
ghost use Rattle.replay.specs.Listings.{drawn, after_record};

use crate::cabinet::{new_bus, new_list};
use crate::calls::{CabinetCall, call_of};
use access::pairs::PairTable;
use access::stops::StopList;
use agent::exchange::{Answered, Idle, Signalled};
use agent::target::Target;
use bus::local::LocalBus;
use bus::portal::Portal;
use journal::record::Record;
use reader::ids::NodeId;
use reader::refusal::Refusal;
use responses::writing::SMALLEST_AREA;
use rules::calls::Answer;
use tables::tables::Tables;

/// A portal over a local bus, and a stop list over a pair table, with the target over both.
#[derive(Drop)]
pub struct Cabinet {
    target: Target<Portal<LocalBus>, StopList<PairTable>>,
}

/// What came of a record: how many bytes of its response stand at the front of the area or why it was refused, and
/// the status block, if one was written.
#[derive(Clone, Copy)]
pub struct Effect {
    pub answer: Result<usize, Refusal>,
    pub area: [u8; SMALLEST_AREA],
    pub status: Option<[u8; 8]>,
}

impl Effect {
    fn quiet(answer: Answer) -> Effect
        ensures { result ≡ quiet answer }
    {
        Effect {
            answer: answer.map(|()| 0),
            area: [0; SMALLEST_AREA],
            status: None,
        }
    }

    /// The bytes of its response.
    pub fn response(&self) -> &[u8]
        ensures { result.now ≡ response_bytes self.now }
    {
        // A ghost field for this bound would leave the definitions no effect of a longer response.
        let stored = self.answer.unwrap_or(0).min(SMALLEST_AREA);
        &self.area[..stored]
    }
}

fn signal(source: NodeId, orb_address: u64) -> Result<Signalled, Refusal>
    ensures { result ≡ signalled source orb_address }
{
    Idle::new().signal(source, orb_address).map_err(|(refusal, idle)| {
        let _ = idle.end();
        refusal
    })
}

// The status block, if one was written.
fn close(answered: Answered) -> Option<[u8; 8]>
    ensures { result ≡ status_block answered.orb_address answered.notify answered.status }
{
    let told = answered.tells();
    let mut area = [0; 8];
    let idle = answered.close(&mut area).unwrap();
    let _ = idle.end();
    told.then_some(area)
}

// What was refused before it came to the target has no response and no status.
fn told_effect(exchanged: Result<Effect, Refusal>) -> Effect
    ensures { result ≡ told_effect exchanged }
{
    exchanged.unwrap_or_else(|refusal| Effect::quiet(Err(refusal)))
}

impl Cabinet {
    /// A new one is the node with EUI-64 1, and empty.
    pub fn new() -> Cabinet
        ensures { data_of result ≡ new_cabinet }
    {
        Cabinet {
            target: Target::new(new_bus(), new_list()),
        }
    }

    /// Its logins and handles.
    pub fn tables(&self) -> &Tables
        ensures { book_of result.now ≡ (data_of self.now).book }
    {
        self.target.tables()
    }

    // An exchange with the station at a node, from its signal to its status.
    fn exchange(
        &mut self,
        source: NodeId,
        orb_address: u64,
        orb: &[u8; 32],
    ) -> Result<Effect, Refusal>
        ensures effect { told_effect result ≡ effect (data_of self.old) (request source orb_address orb.now) }
        ensures after { data_of self.new ≡ after_record (data_of self.old) (call_of (request source orb_address orb.now)) }
    {
        let signalled = signal(source, orb_address)?;
        let mut area = [0; SMALLEST_AREA];
        let mut link = 0;
        let (answered, answer) = signalled
            .answer(&mut self.target, orb, &mut area, &mut link)
            .unwrap();
        let status = close(answered);
        Ok(Effect {
            answer,
            area,
            status,
        })
    }

    // What a call is answered, or why there was none.
    fn make(&mut self, call: Result<CabinetCall, Refusal>) -> Answer
        ensures answer { result ≡ drawn (data_of self.old) call }
        ensures after { data_of self.new ≡ after_record (data_of self.old) call }
    {
        self.target.make(call?)
    }

    /// What a record makes of the cabinet, and what comes of it: a request goes through an exchange, all else is a call
    /// of the target.
    pub fn perform(&mut self, record: Record<'_>) -> Effect
        ensures effect { result ≡ effect (data_of self.old) (entry «record».entry) }
        ensures after { data_of self.new ≡ after_record (data_of self.old) (call_of (entry «record».entry)) }
    {
        if let Record::Request {
            source,
            orb_address,
            orb,
        } = record
        {
            return told_effect(self.exchange(source, orb_address, orb));
        }
        Effect::quiet(self.make(call_of(record)))
    }
}
