// QUERY LOGINS and NODE HANDLE.
ghost use Rattle.std.specs.Prelude.{◌≡◌, ◌-◌, ◌≤◌, [], ◌++◌, length, drop};
ghost use Rattle.logins.specs.declared.rows.WhichHandle.TheVariants.{For};
ghost use Rattle.tables.specs.Searches.{free_handle_place};
ghost use Rattle.responses.specs.Writing.{smallest_area};
ghost use Rattle.rules.specs.Handles.{query_outcome, shown_there, other_handle, allocate_new, allocate, release, handle_outcome};
ghost use Rattle.rules.specs.Responses.{handle_response};
ghost use Rattle.rules.specs.Runs.{scene};
ghost use Rattle.rules.specs.Scenes.{response, stored};
ghost use Rattle.management.specs.Serving.{Serves};
ghost use Rattle.management.specs.Parts.{snapshot_of};

use crate::asking::LoginSlot;
use crate::parts::ManagementAgent;
use access::{Access, LAST_UNIT};
use bus::Bus;
use logins::rows::{Handle, HandleSweep, WhichHandle};
use reader::ids::NodeId;
use reader::refusal::Refusal;
use reader::request::Request;
use responses::queries::write_query;
use responses::writing::{SMALLEST_AREA, write_handle};

// All handles of a login but its own, in a release.
const ALL_OTHERS: u16 = 0xFFFF;

// A handle of the login for another node.
fn other_handle(request: &Request) -> Handle
    ensures { result ≡ other_handle request.now }
{
    Handle {
        login: request.unit_or_login_id,
        eui_64: request.eui_64,
        node: NodeId(request.node_or_handle),
        own: false,
    }
}

impl<B: Bus, A: Access> ManagementAgent<B, A> {
    pub(crate) fn query(
        &self,
        request: &Request,
        response: &mut [u8; SMALLEST_AREA],
    ) -> Result<usize, Refusal>
        ensures served { Serves (snapshot_of self.now) (query_outcome (scene B.Bus.model A.Access.model (snapshot_of self.now)) request.now) result (snapshot_of self.now) }
        ensures area { response.new ≡ stored response.old (query_outcome (scene B.Bus.model A.Access.model (snapshot_of self.now)) request.now) }
    {
        let unit = request.unit_or_login_id;
        if unit > LAST_UNIT {
            return Err(Refusal::LogicalUnitNotSupported);
        }
        if request.response_length < 4 {
            return Err(Refusal::FunctionRejected);
        }
        write_query(response, unit, request.response_length, &self.tables)
    }

    // The bus shows the EUI-64 at the node number.
    fn is_shown_there(&self, request: &Request) -> bool
        ensures { result ≡ shown_there (scene B.Bus.model A.Access.model (snapshot_of self.now)) request.now }
    {
        self.bus.who(NodeId(request.node_or_handle)) == Some(request.eui_64)
    }

    fn allocate(
        &mut self,
        request: &Request,
        response: &mut [u8; SMALLEST_AREA],
    ) -> Result<usize, Refusal>
        ensures served { Serves (snapshot_of self.old) (allocate (scene B.Bus.model A.Access.model (snapshot_of self.old)) request.now) result (snapshot_of self.new) }
        ensures area { response.new ≡ stored response.old (allocate (scene B.Bus.model A.Access.model (snapshot_of self.old)) request.now) }
    {
        if request.response_length < 4 {
            return Err(Refusal::FunctionRejected);
        }
        if !self.is_shown_there(request) {
            return Err(Refusal::UnknownEui64);
        }
        let known = WhichHandle::For(request.eui_64);
        let Some(place) = self.tables.find_handle(request.unit_or_login_id, known) else {
            return self.allocate_new(request, response);
        };
        let stored = tell_handle(place as u16 + 1, response);
        let node = NodeId(request.node_or_handle);
        self.tables.move_handle(place, node);
        Ok(stored)
    }

    fn allocate_new(
        &mut self,
        request: &Request,
        response: &mut [u8; SMALLEST_AREA],
    ) -> Result<usize, Refusal>
        ensures served { Serves (snapshot_of self.old) (allocate_new (scene B.Bus.model A.Access.model (snapshot_of self.old)) request.now (free_handle_place (snapshot_of self.old).book)) result (snapshot_of self.new) }
        ensures area { response.new ≡ stored response.old (allocate_new (scene B.Bus.model A.Access.model (snapshot_of self.old)) request.now (free_handle_place (snapshot_of self.old).book)) }
    {
        let place = self.handle_place()?;
        let stored = tell_handle(place as u16 + 1, response);
        self.tables.give_handle(place, other_handle(request));
        Ok(stored)
    }

    // FFFFh frees all but the own; one handle is given back unless it is the own one or another login's.
    fn release(&mut self, request: &Request) -> Result<usize, Refusal>
        ensures served { Serves (snapshot_of self.old) (release (scene B.Bus.model A.Access.model (snapshot_of self.old)) request.now) result (snapshot_of self.new) }
        ensures silent { response (release (scene B.Bus.model A.Access.model (snapshot_of self.old)) request.now) ≡ [] }
    {
        let login = request.unit_or_login_id;
        let number = request.node_or_handle;
        if number == ALL_OTHERS {
            self.tables.sweep_handles(HandleSweep::OthersOf(login));
            return Ok(0);
        }
        let place = usize::from(number)
            .checked_sub(1)
            .ok_or(Refusal::NodeHandleNotRecognized)?;
        let handle = self.tables.handle(place);
        if handle.login != login {
            return Err(Refusal::NodeHandleNotRecognized);
        }
        if handle.own {
            return Err(Refusal::FunctionRejected);
        }
        self.tables.put_handle(place, Handle::free());
        Ok(0)
    }

    pub(crate) fn node_handle(
        &mut self,
        source: NodeId,
        request: &Request,
        response: &mut [u8; SMALLEST_AREA],
    ) -> Result<usize, Refusal>
        ensures served { Serves (snapshot_of self.old) (handle_outcome (scene B.Bus.model A.Access.model (snapshot_of self.old)) source request.now) result (snapshot_of self.new) }
        ensures area { response.new ≡ stored response.old (handle_outcome (scene B.Bus.model A.Access.model (snapshot_of self.old)) source request.now) }
    {
        let LoginSlot { slot } = self.own_login(source, request.unit_or_login_id)?;
        if !self.tables.login(slot).aware {
            return Err(Refusal::FunctionRejected);
        }
        if request.exclusive_or_allocate {
            self.allocate(request, response)
        } else {
            self.release(request)
        }
    }
}

// Tells the handle that was given, and gives the number of bytes. Beside `tell_login`, since each calls a writer of its own.
fn tell_handle(number: u16, response: &mut [u8; SMALLEST_AREA]) -> usize
    ensures value { result ≡ length (handle_response number) }
    ensures after { response.new ≡ handle_response number ++ drop result response.old }
{
    write_handle(response, number).unwrap()
}
