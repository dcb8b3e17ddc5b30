// What every bus answers, by its meaning: its own ID, and for each node ID an EUI-64 or nobody.
#![tactic(auto)]

ghost use Rattle.std.specs.Prelude.{◌≡◌};
ghost use Rattle.bus.specs.Meaning.{BusModel, Lawful, somebody};
ghost use Rattle.bus.specs.Finding.{Finds, local_of};

mod entries;
pub mod harness;
pub mod local;
mod places;
pub mod portal;

use reader::ids::{Eui64, NodeId};
use reader::refusal::Refusal;

/// A bus, known only by its model. Questions leave it as it is; a reset, a net update and a note
/// make of it what the model says.
pub trait Bus {
    ghost model: { BusModel Self };

    /// Where this node stands.
    fn own_id(&self) -> NodeId
        ensures { result ≡ model.own self.now };

    /// Who is at a node ID.
    fn who(&self, node: NodeId) -> Option<Eui64>
        ensures { result ≡ model.shows self.now node };

    /// Which local ID shows an EUI-64.
    fn find(&self, eui: Eui64) -> Option<NodeId>
        ensures { Finds (model.shows self.now) eui result };

    /// A bus reset: the next topology of the local bus.
    fn reset(&mut self)
        ensures { model.Resets self.old self.new };

    /// A net update: the next topology of all buses.
    fn net_update(&mut self)
        ensures { model.Updates self.old self.new };

    /// Notes who is at a node ID in the next topology; all ones is nobody, as None is.
    fn note(&mut self, node: NodeId, eui: Option<Eui64>) -> Result<(), Refusal>
        ensures { model.Notes self.old node eui result self.new };

    ghost lawful: { Lawful model };
}

/// The local ID that shows an EUI-64, as a value of what the bus shows: there is one at most.
pub fn local_id<B: Bus>(bus: &B, eui: Eui64) -> Option<NodeId>
    ensures { result ≡ local_of (B.Bus.model.shows bus.now) eui }
{
    bus.find(eui)
}

/// An EUI-64 of all ones is nobody.
fn somebody(eui: Eui64) -> Option<Eui64>
    ensures { result ≡ somebody eui }
{
    (!eui.is_none()).then_some(eui)
}
