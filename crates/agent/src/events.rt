// What comes to a target: requests, resets, net updates, gaps, ticks, access changes and notes.
ghost use Rattle.std.specs.Prelude.{◌≡◌, ◌≤◌, length};
ghost use Rattle.tables.specs.Books.{book_of};
ghost use Rattle.responses.specs.Writing.{smallest_area};
ghost use Rattle.rules.specs.Runs.{Step, scene};
ghost use Rattle.rules.specs.Scenes.{stored};
ghost use Rattle.rules.specs.Serving.{outcome};
ghost use Rattle.rules.specs.declared.calls.Call.TheVariants.{Request as Asked, BusReset, NetUpdate, Gap, Tick, AccessChange, BusNote, AccessNote};
ghost use Rattle.management.specs.Serving.{Serves, in_area, answer_told};
ghost use Rattle.agent.specs.Targets.{snapshot_of, new_snapshot};
ghost use Rattle.bus.specs.Meaning.{granted};

use crate::target::Target;
use access::Access;
use bus::Bus;
use management::parts::ManagementAgent;
use reader::ids::{Eui64, NodeId};
use reader::refusal::Refusal;
use reader::request::Request;
use tables::tables::Tables;

impl<B: Bus, A: Access> Target<B, A> {
    /// A target with no holder and no handle in use, over a bus and an access list in whatever state.
    pub fn new(bus: B, list: A) -> Target<B, A>
        ensures { snapshot_of result ≡ new_snapshot bus list }
    {
        let tables = Tables::new();
        Target {
            agent: ManagementAgent { bus, list, tables },
        }
    }

    /// Its logins and handles.
    pub fn tables(&self) -> &Tables
        ensures { book_of result.now ≡ (snapshot_of self.now).book }
    {
        &self.agent.tables
    }

    /// Serves a request from a node: the number of bytes stored at the front of the response area, whose other bytes
    /// keep their values, or a refusal, which changes nothing.
    pub fn serve(
        &mut self,
        source: NodeId,
        request: &Request,
        response: &mut [u8],
    ) -> Result<usize, Refusal>
        ensures served { Serves (snapshot_of self.old) (in_area response.old (outcome (scene B.Bus.model A.Access.model (snapshot_of self.old)) source request.now)) result (snapshot_of self.new) }
        ensures area { response.new ≡ stored response.old (in_area response.old (outcome (scene B.Bus.model A.Access.model (snapshot_of self.old)) source request.now)) }
        ensures step { smallest_area ≤ length response.old → Step B.Bus.model A.Access.model (snapshot_of self.old) (Asked source request.now) (answer_told result) (snapshot_of self.new) }
    {
        self.agent.serve(source, request, response)
    }

    pub fn bus_reset(&mut self)
        ensures { Step B.Bus.model A.Access.model (snapshot_of self.old) BusReset granted (snapshot_of self.new) }
    {
        self.agent.bus.reset();
        self.agent.tables.reset(&self.agent.bus);
    }

    pub fn net_update(&mut self)
        ensures { Step B.Bus.model A.Access.model (snapshot_of self.old) NetUpdate granted (snapshot_of self.new) }
    {
        self.agent.bus.net_update();
        self.agent.tables.net_update();
    }

    /// A gap: from the first after a reset or a net update on, ticks count.
    pub fn gap(&mut self)
        ensures { Step B.Bus.model A.Access.model (snapshot_of self.old) Gap granted (snapshot_of self.new) }
    {
        self.agent.tables.gap();
    }

    pub fn tick(&mut self)
        ensures { Step B.Bus.model A.Access.model (snapshot_of self.old) Tick granted (snapshot_of self.new) }
    {
        self.agent.tables.tick();
    }

    /// An access change: the list's notes become true, and whoever it no longer admits is logged out.
    pub fn access_change(&mut self)
        ensures { Step B.Bus.model A.Access.model (snapshot_of self.old) AccessChange granted (snapshot_of self.new) }
    {
        self.agent.list.change();
        self.agent.tables.access_change(&self.agent.list);
    }

    /// Notes who is at a node ID in the next topology.
    pub fn bus_note(&mut self, node: NodeId, eui: Option<Eui64>) -> Result<(), Refusal>
        ensures { Step B.Bus.model A.Access.model (snapshot_of self.old) (BusNote node eui) result (snapshot_of self.new) }
    {
        self.agent.bus.note(node, eui)
    }

    /// Notes something for the next access change.
    pub fn access_note(&mut self, note: A::Note) -> Result<(), Refusal>
        ensures { Step B.Bus.model A.Access.model (snapshot_of self.old) (AccessNote note) result (snapshot_of self.new) }
    {
        self.agent.list.note(note)
    }
}
