// The update of a login.
ghost use Rattle.std.specs.Prelude.{◌≡◌, ◌+◌, ◌++◌, length, drop};
ghost use Rattle.logins.specs.Logins.{row_of};
ghost use Rattle.logins.specs.Rows.{logins_size, row_at};
ghost use Rattle.logins.specs.declared.rows.WhichHandle.TheVariants.{Own};
ghost use Rattle.logins.specs.Tests.{meant};
ghost use Rattle.tables.specs.Searches.{first, free_handle_place};
ghost use Rattle.responses.specs.Writing.{smallest_area};
ghost use Rattle.rules.specs.Responses.{login_response};
ghost use Rattle.rules.specs.Logins.{hold_of, updated_row, updated, handle_number, aware_update, update_in, update_outcome};
ghost use Rattle.rules.specs.Runs.{SameBelow, scene};
ghost use Rattle.rules.specs.Scenes.{response, stored};
ghost use Rattle.management.specs.Serving.{Serves};
ghost use Rattle.management.specs.Parts.{snapshot_of};

use crate::asking::LoginSlot;
use crate::login::{is_rejected, own_handle};
use crate::parts::ManagementAgent;
use access::Access;
use bus::Bus;
use logins::rows::{HandleSweep, Holders, Login, WhichHandle};
use reader::ids::NodeId;
use reader::refusal::Refusal;
use reader::request::Request;
use responses::writing::SMALLEST_AREA;

// Unit, owner and ticks stay, the rest is replaced.
fn updated_login(login: Login, request: &Request) -> Login
    ensures { row_of result ≡ updated_row (row_of login) request.now }
{
    // No `..login`: a literal of a type with an invariant names each field.
    let mut updated = login;
    updated.status_fifo = request.status_fifo;
    updated.exclusive = request.exclusive_or_allocate;
    updated.aware = request.aware;
    updated.hold = request.hold();
    updated
}

impl<B: Bus, A: Access> ManagementAgent<B, A> {
    pub(crate) fn update(
        &mut self,
        source: NodeId,
        request: &Request,
        response: &mut [u8; SMALLEST_AREA],
    ) -> Result<usize, Refusal>
        ensures served { Serves (snapshot_of self.old) (update_outcome (scene B.Bus.model A.Access.model (snapshot_of self.old)) source request.now) result (snapshot_of self.new) }
        ensures area { response.new ≡ stored response.old (update_outcome (scene B.Bus.model A.Access.model (snapshot_of self.old)) source request.now) }
    {
        let at = self.own_login(source, request.unit_or_login_id)?;
        if is_rejected(source, request) {
            return Err(Refusal::FunctionRejected);
        }
        let unit = self.tables.login(at.slot).unit;
        if request.exclusive_or_allocate && self.tables.count_holders(Holders::OfUnit(unit)) > 1 {
            return Err(Refusal::AccessDenied(unit));
        }
        self.update_at(at, request, response)
    }

    // Newly aware brings an own handle, still aware keeps its handles, and no longer aware frees them.
    fn update_at(
        &mut self,
        at: LoginSlot,
        request: &Request,
        response: &mut [u8; SMALLEST_AREA],
    ) -> Result<usize, Refusal>
        ensures served { Serves (snapshot_of self.old) (update_in (scene B.Bus.model A.Access.model (snapshot_of self.old)) request.now at.slot (row_at (snapshot_of self.old).book.logins at.slot)) result (snapshot_of self.new) }
        ensures area { response.new ≡ stored response.old (update_in (scene B.Bus.model A.Access.model (snapshot_of self.old)) request.now at.slot (row_at (snapshot_of self.old).book.logins at.slot)) }
    {
        let login = self.tables.login(at.slot);
        if request.aware && login.aware {
            let own = self.own_handle_number(at);
            return Ok(self.replace_login(at, own, request, response));
        }
        if request.aware {
            return self.newly_aware(at, request, response);
        }
        let stored = self.replace_login(at, 0, request, response);
        if login.aware {
            self.tables.sweep_handles(HandleSweep::AllOf(at.login_id()));
        }
        Ok(stored)
    }

    // Tells and records what an update grants to a login.
    fn replace_login(
        &mut self,
        at: LoginSlot,
        own: u16,
        request: &Request,
        response: &mut [u8; SMALLEST_AREA],
    ) -> usize
        ensures value { result ≡ length (login_response (B.Bus.model.own self.old.bus) at.slot own (hold_of request.now) request.now.response_length) }
        ensures after { response.new ≡ login_response (B.Bus.model.own self.old.bus) at.slot own (hold_of request.now) request.now.response_length ++ drop result response.old }
        ensures same { SameBelow B.Bus.model A.Access.model (snapshot_of self.old) (snapshot_of self.new) }
        ensures book { (snapshot_of self.new).book ≡ updated (scene B.Bus.model A.Access.model (snapshot_of self.old)) request.now at.slot (row_at (snapshot_of self.old).book.logins at.slot) }
    {
        let stored = self.tell_login(at, own, request, response);
        let login = self.tables.login(at.slot);
        self.tables
            .put_login(at.slot, updated_login(login, request));
        stored
    }

    fn newly_aware(
        &mut self,
        at: LoginSlot,
        request: &Request,
        response: &mut [u8; SMALLEST_AREA],
    ) -> Result<usize, Refusal>
        ensures served { Serves (snapshot_of self.old) (aware_update (scene B.Bus.model A.Access.model (snapshot_of self.old)) request.now at.slot (row_at (snapshot_of self.old).book.logins at.slot) (free_handle_place (snapshot_of self.old).book)) result (snapshot_of self.new) }
        ensures area { response.new ≡ stored response.old (aware_update (scene B.Bus.model A.Access.model (snapshot_of self.old)) request.now at.slot (row_at (snapshot_of self.old).book.logins at.slot) (free_handle_place (snapshot_of self.old).book)) }
    {
        let login = self.tables.login(at.slot);
        let place = self.handle_place()?;
        let stored = self.replace_login(at, place as u16 + 1, request, response);
        let own = own_handle(at.login_id(), login.owner_eui_64, login.owner_id);
        self.tables.give_handle(place, own);
        Ok(stored)
    }

    // The number of the own handle of a login, 0 where it has none, as in a response.
    fn own_handle_number(&self, at: LoginSlot) -> u16
        ensures { result ≡ handle_number (first (meant (at.slot + 1) Own) 0 (snapshot_of self.now).book.handles) }
    {
        self.tables
            .find_handle(at.login_id(), WhichHandle::Own)
            .map_or(0, |place| place as u16 + 1)
    }
}
