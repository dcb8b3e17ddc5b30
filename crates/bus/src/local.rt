// A bus of 63 nodes, whose next topology is noted before it comes.
ghost use Rattle.std.specs.Prelude.{◌≡◌};
ghost use Rattle.bus.specs.LocalBuses.{local_model, local_tables, new_local};
ghost use Rattle.bus.specs.LocalBusesLemmas.{local_lawful};

use crate::Bus;
use crate::places::Places;
use notes::noting::Notes;
use reader::ids::{Eui64, NodeId};
use reader::refusal::Refusal;

/// The node `eui` on its bus: whom it shows, and who is noted for the next topology.
#[derive(Clone, Copy)]
pub struct LocalBus {
    eui: Eui64,
    places: Notes<Places>,
}

impl LocalBus {
    /// With an EUI-64 of all ones it is a node that never stands anywhere.
    pub fn new(eui: Eui64) -> LocalBus
        ensures { local_tables result ≡ new_local eui }
    {
        LocalBus {
            eui,
            places: Notes::new(Places::empty()),
        }
    }
}

impl Bus for LocalBus {
    ghost model = { local_model };

    ghost lawful = { local_lawful };

    fn own_id(&self) -> NodeId {
        self.places.current.find(self.eui).unwrap_or(NodeId::NONE)
    }

    fn who(&self, node: NodeId) -> Option<Eui64> {
        self.places.current.who(node)
    }

    fn find(&self, eui: Eui64) -> Option<NodeId> {
        self.places.current.find(eui)
    }

    fn reset(&mut self) {
        self.places.settle();
    }

    fn net_update(&mut self) {
        self.reset();
    }

    fn note(&mut self, node: NodeId, eui: Option<Eui64>) -> Result<(), Refusal> {
        self.places.noted.seat(node, eui.unwrap_or(Eui64::NONE))
    }
}
