// Notes come true: on any bus by its model, on a known one by value, and as a law of local bus and portal.
ghost use Rattle.std.specs.Prelude.{◌≡◌, if◌then◌else◌, None};
ghost use Rattle.reader.specs.Ids.{local};
ghost use Rattle.bus.specs.Meaning.{somebody};
ghost use Rattle.bus.specs.LocalBuses.{local_model};
ghost use Rattle.bus_laws.specs.Following.{Follows, PortalsFollow, local_next};
ghost use Rattle.bus_laws.specs.Topologies.{ShownAfterReset};

use bus::Bus;
use bus::local::LocalBus;
use bus::portal::Portal;
use reader::ids::{Eui64, NodeId};

/// Notes who is at a node ID, and says whom the bus shows there after the next reset.
pub fn shown_after_reset<B: Bus>(bus: &mut B, node: NodeId, eui: Option<Eui64>) -> Option<Eui64>
    ensures { ShownAfterReset B.Bus.model bus.old node eui result bus.new }
{
    let _ = bus.note(node, eui);
    bus.reset();
    bus.who(node)
}

/// The same through a portal on a new local bus: who is noted at a local ID is shown, and at no other ID anyone.
pub fn shown_on_a_new_bus(own: Eui64, node: NodeId, eui: Eui64) -> Option<Eui64>
    ensures { result ≡ (if local node then somebody eui else None) }
{
    let mut bus = Portal::new(LocalBus::new(own));
    shown_after_reset(&mut bus, node, Some(eui))
}

/// What is noted on a local bus comes true. The contract is the law, and there is nothing to run.
pub fn local_bus_follows_notes()
    ensures { Follows local_model local_next }
{}

/// The same of a portal, wherever it is so of the bus below.
pub fn portal_follows_notes<B: Bus>()
    ensures { PortalsFollow B.Bus.model }
{}
