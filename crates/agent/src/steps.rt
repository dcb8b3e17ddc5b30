// An exchange with a station: signal, answer, close. A refusal hands the same state back.
ghost use Rattle.std.specs.Prelude.{◌≡◌};
ghost use Rattle.agent.specs.Exchanges.{orb_fits, status_of, tells, after_signal, after_close, closed_area};

use crate::exchange::{Answered, Idle, Signalled};
use reader::ids::NodeId;
use reader::refusal::Refusal;
use reader::status::write_status;

const LAST_ORB: u64 = 0xFFFF_FFFF_FFFC;

/// Whether an ORB can stand at an address.
pub fn orb_fits(orb_address: u64) -> bool
    ensures { result ≡ orb_fits orb_address }
{
    orb_address <= LAST_ORB && orb_address % 4 == 0
}

/// The status of a request that was answered: 0, or the number of the refusal.
pub fn status<T: Drop>(answered: Result<T, Refusal>) -> u8
    ensures { result ≡ status_of answered }
{
    match answered {
        Ok(_) => 0,
        Err(refusal) => refusal.number(),
    }
}

impl Idle {
    pub fn new() -> Idle
        ensures { result.closed ≡ 0 }
    {
        Idle { closed: 0 }
    }

    /// Lets the exchange go, and tells how many were closed.
    pub fn end(self) -> u64
        ensures { result ≡ self.closed }
    {
        let Idle { closed: count } = self;
        count
    }

    /// A station has a request at an ORB address.
    pub fn signal(self, source: NodeId, orb_address: u64) -> Result<Signalled, (Refusal, Idle)>
        ensures { result ≡ after_signal self source orb_address }
    {
        if !orb_fits(orb_address) {
            return Err((Refusal::OrbAddress(orb_address), self));
        }
        let Idle { closed } = self;
        Ok(Signalled {
            closed,
            source,
            orb_address,
        })
    }
}

impl Answered {
    /// Whether a status block is to be written: the request asks for it, or was refused.
    pub fn tells(&self) -> bool
        ensures { result ≡ tells self.now }
    {
        self.notify || self.status != 0
    }

    /// Writes the status block, if it tells one.
    pub fn close(self, area: &mut [u8]) -> Result<Idle, (Refusal, Answered)>
        ensures value { result ≡ after_close self area.old }
        ensures area { area.new ≡ closed_area self area.old }
    {
        if area.len() < 8 {
            return Err((Refusal::StatusArea(area.len()), self));
        }
        let told = self.tells();
        let Answered {
            closed,
            orb_address,
            status,
            notify: _,
        } = self;
        // The area was found long enough above.
        if told {
            let _ = write_status(area, status, orb_address);
        }
        Ok(Idle {
            closed: closed.wrapping_add(1),
        })
    }
}
