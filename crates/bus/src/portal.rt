// A layer over any bus, which adds nodes of other buses to those that the bus below shows.
ghost use Rattle.std.specs.Prelude.{◌≡◌};
ghost use Rattle.bus.specs.Portals.{portal_model, portal_tables, new_portal};
ghost use Rattle.bus.specs.PortalsLemmas.{portal_lawful};

use crate::entries::{Entry, SIZE};
use crate::{Bus, somebody};
use notes::noting::Notes;
use notes::slots::Table;
use reader::ids::{Eui64, NodeId};
use reader::refusal::Refusal;

/// The bus below, and whom the portal shows at global IDs, with the notes for the next net update.
#[derive(Drop)]
pub struct Portal<B: Bus> {
    below: B,
    globals: Notes<Table<Entry, SIZE>>,
}

impl<B: Bus> Portal<B> {
    pub fn new(below: B) -> Portal<B>
        ensures below { result.below ≡ below }
        ensures tables { portal_tables result ≡ new_portal }
    {
        let free = Entry {
            node: NodeId::NONE,
            eui: Eui64::NONE,
        };
        Portal {
            below,
            globals: Notes::new(Table::empty(free)),
        }
    }
}

impl<B: Bus> Bus for Portal<B> {
    ghost model = { portal_model B.Bus.model };

    ghost lawful = { portal_lawful B.Bus.model B.Bus.lawful };

    fn own_id(&self) -> NodeId {
        self.below.own_id()
    }

    fn who(&self, node: NodeId) -> Option<Eui64> {
        if node.is_global()
            && let Some(entry) = self.globals.find(node)
            && let Some(eui) = somebody(entry.eui)
        {
            return Some(eui);
        }
        self.below.who(node)
    }

    fn find(&self, eui: Eui64) -> Option<NodeId> {
        self.below.find(eui)
    }

    fn reset(&mut self) {
        self.below.reset();
    }

    fn net_update(&mut self) {
        self.below.net_update();
        self.globals.settle();
    }

    fn note(&mut self, node: NodeId, eui: Option<Eui64>) -> Result<(), Refusal> {
        if !node.is_global() {
            return self.below.note(node, eui);
        }
        let eui = eui.unwrap_or(Eui64::NONE);
        self.globals.note(Entry { node, eui }, !eui.is_none())
    }
}
