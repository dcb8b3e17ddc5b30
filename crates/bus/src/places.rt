// The places of a local bus, one for each of the 63 local IDs.
ghost use Rattle.std.specs.Prelude.{◌≡◌, ◌-◌, length, replicate};
ghost use Rattle.bus.specs.Meaning.{nobody};
ghost use Rattle.bus.specs.Finding.{Finds, local_of};
ghost use Rattle.bus.specs.Places.{Apart, seated, unless_elsewhere, seat_answer, seat_after};

use crate::somebody;
use notes::in_range;
use reader::ids::{Eui64, NodeId};
use reader::refusal::Refusal;

const FIRST: u16 = 0xFFC0;

/// Who is at FFC0h, FFC1h and so on; all ones is nobody, as in a note and on the wire, and no one
/// else is at two places.
#[derive(Clone, Copy)]
pub struct Places {
    euis: [Eui64; 63],
    ghost size: { length euis ≡ 63 },
    ghost apart: { Apart euis },
}

impl Places {
    pub fn empty() -> Places
        ensures { result.euis ≡ replicate 63 nobody }
    {
        Places {
            euis: [Eui64::NONE; 63],
        }
    }

    pub fn who(&self, node: NodeId) -> Option<Eui64>
        ensures { result ≡ seated self.now.euis node }
    {
        let place = node.0.checked_sub(FIRST)?;
        self.euis
            .get(usize::from(place))
            .copied()
            .and_then(somebody)
    }

    pub fn find(&self, eui: Eui64) -> Option<NodeId>
        ensures finds { Finds (seated self.now.euis) eui result }
        ensures value { result ≡ local_of (seated self.now.euis) eui }
    {
        if eui.is_none() {
            return None;
        }
        let place = self.euis.iter().position(|e| *e == eui)?;
        Some(NodeId(FIRST + place as u16))
    }

    /// Seats an EUI-64 (all ones: nobody) at a local ID, unless it is seated at another.
    pub fn seat(&mut self, node: NodeId, eui: Eui64) -> Result<(), Refusal>
        ensures answer { result ≡ seat_answer self.old.euis node eui }
        ensures after { self.new.euis ≡ seat_after self.old.euis node eui }
    {
        in_range(node.is_local(), u64::from(node.0))?;
        self.seated_nowhere_but(node, eui)?;
        self.euis[(node.0 - FIRST) as usize] = eui;
        Ok(())
    }

    fn seated_nowhere_but(&self, node: NodeId, eui: Eui64) -> Result<(), Refusal>
        ensures { result ≡ unless_elsewhere node (local_of (seated self.now.euis) eui) }
    {
        match self.find(eui) {
            Some(other) if other != node => Err(Refusal::NotedElsewhere(other)),
            _ => Ok(()),
        }
    }
}
