// LOGIN, RECONNECT and LOGOUT.
ghost use Rattle.std.specs.Prelude.{◌≡◌, ◌+◌, ◌<◌, ◌≤◌, [], ◌++◌, length, drop, Some, None, MatchResult};
ghost use Rattle.reader.specs.declared.refusal.Refusal.TheVariants.{ResourcesUnavailable, LoginIdNotRecognized};
ghost use Rattle.logins.specs.Logins.{row_of};
ghost use Rattle.logins.specs.Rows.{handles_size};
ghost use Rattle.logins.specs.declared.rows.WhichHandle.TheVariants.{Own};
ghost use Rattle.tables.specs.Searches.{free_login, free_handle_place};
ghost use Rattle.responses.specs.Writing.{smallest_area};
ghost use Rattle.rules.specs.Responses.{login_response};
ghost use Rattle.rules.specs.Logins.{logins_in_use, handles_in_use, hold_of, own_handle, login_at, login_outcome, rejected, denied, new_row, reconnect_outcome, logout_outcome};
ghost use Rattle.rules.specs.Runs.{scene};
ghost use Rattle.rules.specs.Scenes.{own_login, response, stored};
ghost use Rattle.management.specs.Serving.{Serves};
ghost use Rattle.management.specs.Parts.{snapshot_of};

use crate::asking::{Initiator, LoginSlot};
use crate::parts::ManagementAgent;
use access::{Access, LAST_UNIT};
use bus::Bus;
use logins::rows::{Handle, Holders, Login, LoginEvent, LoginState, WhichHandle};
use reader::ids::{Eui64, NodeId};
use reader::refusal::Refusal;
use reader::request::Request;
use responses::told::LoginTold;
use responses::writing::{SMALLEST_AREA, write_login};

// From another bus without awareness, or no room for the response.
pub(crate) fn is_rejected(source: NodeId, request: &Request) -> bool
    ensures { result ≡ rejected source request.now }
{
    source.is_global() && !request.aware
        || request.response_length < 12
        || request.aware && request.response_length < 16
}

// The own handle of a login stands at its owner's node.
pub(crate) fn own_handle(id: u16, eui: Eui64, node: NodeId) -> Handle
    ensures { result ≡ own_handle id eui node }
{
    Handle {
        login: id,
        eui_64: eui,
        node,
        own: true,
    }
}

// The slot of a login ID, in the table or past its end; ID 0 has none.
fn slot_of(id: u16) -> Result<usize, Refusal>
    ensures { MatchResult result (λ k. id ≡ k + 1) (λ e. (id ≡ 0) × (e ≡ LoginIdNotRecognized)) }
{
    usize::from(id)
        .checked_sub(1)
        .ok_or(Refusal::LoginIdNotRecognized)
}

// The login that is granted.
fn new_login(from: Initiator, request: &Request) -> Login
    ensures { row_of result ≡ new_row from.node from.eui_64 request.now }
{
    Login {
        unit: request.unit_or_login_id,
        owner_id: from.node,
        owner_eui_64: from.eui_64,
        status_fifo: request.status_fifo,
        exclusive: request.exclusive_or_allocate,
        aware: request.aware,
        hold: request.hold(),
        ticks_left: 0,
    }
}

impl<B: Bus, A: Access> ManagementAgent<B, A> {
    // Not admitted, or the owner holds the unit, or exclusive is asked of a unit that has a holder, or a holder is
    // exclusive.
    fn is_denied(&self, eui: Eui64, request: &Request) -> bool
        ensures { result ≡ denied (scene B.Bus.model A.Access.model (snapshot_of self.now)) eui request.now }
    {
        let unit = request.unit_or_login_id;
        !self.list.admits(eui, unit)
            || self.tables.count_holders(Holders::Owning(eui, unit)) > 0
            || request.exclusive_or_allocate && self.tables.count_holders(Holders::OfUnit(unit)) > 0
            || self.tables.count_holders(Holders::ExclusiveTo(unit)) > 0
    }

    // The slot of the own active login: active, with the source ID as owner ID.
    pub(crate) fn own_login(&self, source: NodeId, id: u16) -> Result<LoginSlot, Refusal>
        ensures { MatchResult result (λ s. own_login (snapshot_of self.now).book source id ≡ Some s.slot) (λ e. (own_login (snapshot_of self.now).book source id ≡ None) × (e ≡ LoginIdNotRecognized)) }
    {
        let slot = slot_of(id)?;
        let login = self.tables.login(slot);
        match login.state() {
            LoginState::Active if login.owner_id == source => Ok(LoginSlot { slot }),
            _ => Err(Refusal::LoginIdNotRecognized),
        }
    }

    // A free place for a handle, if there is one.
    pub(crate) fn handle_place(&self) -> Result<usize, Refusal>
        ensures { MatchResult result (λ k. (free_handle_place (snapshot_of self.now).book ≡ Some k) × (k < handles_size)) (λ e. (free_handle_place (snapshot_of self.now).book ≡ None) × (e ≡ ResourcesUnavailable (handles_in_use (snapshot_of self.now).book))) }
    {
        self.tables.free_handle().ok_or_else(|| Refusal::ResourcesUnavailable(
            self.tables.count_handles(),
        ))
    }

    // A free slot for a login, if there is one.
    fn free_slot(&self) -> Result<LoginSlot, Refusal>
        ensures { MatchResult result (λ s. free_login (snapshot_of self.now).book ≡ Some s.slot) (λ e. (free_login (snapshot_of self.now).book ≡ None) × (e ≡ ResourcesUnavailable (logins_in_use (snapshot_of self.now).book))) }
    {
        let slot = self.tables.free_login().ok_or_else(|| Refusal::ResourcesUnavailable(
            self.tables.count_holders(Holders::All),
        ))?;
        Ok(LoginSlot { slot })
    }

    // Tells what a login or an update granted, and gives the number of bytes. In a response 0 is no handle.
    pub(crate) fn tell_login(
        &self,
        at: LoginSlot,
        handle: u16,
        request: &Request,
        response: &mut [u8; SMALLEST_AREA],
    ) -> usize
        ensures value { result ≡ length (login_response (B.Bus.model.own self.now.bus) at.slot handle (hold_of request.now) request.now.response_length) }
        ensures after { response.new ≡ login_response (B.Bus.model.own self.now.bus) at.slot handle (hold_of request.now) request.now.response_length ++ drop result response.old }
    {
        let told = LoginTold {
            own: self.bus.own_id(),
            slot: at.slot as u16,
            handle,
            hold: request.hold(),
            room: request.response_length,
        };
        write_login(response, told).unwrap()
    }

    pub(crate) fn login(
        &mut self,
        from: Initiator,
        request: &Request,
        response: &mut [u8; SMALLEST_AREA],
    ) -> Result<usize, Refusal>
        ensures served { Serves (snapshot_of self.old) (login_outcome (scene B.Bus.model A.Access.model (snapshot_of self.old)) from.node from.eui_64 request.now) result (snapshot_of self.new) }
        ensures area { response.new ≡ stored response.old (login_outcome (scene B.Bus.model A.Access.model (snapshot_of self.old)) from.node from.eui_64 request.now) }
    {
        let unit = request.unit_or_login_id;
        if unit > LAST_UNIT {
            return Err(Refusal::LogicalUnitNotSupported);
        }
        if is_rejected(from.node, request) {
            return Err(Refusal::FunctionRejected);
        }
        if self.is_denied(from.eui_64, request) {
            return Err(Refusal::AccessDenied(unit));
        }
        let at = self.free_slot()?;
        if request.aware {
            return self.aware_login(at, from, request, response);
        }
        let stored = self.tell_login(at, 0, request, response);
        let granted = new_login(from, request);
        self.tables.give_login(at.slot, granted);
        Ok(stored)
    }

    // An aware login brings an own handle, if there is a place for it.
    fn aware_login(
        &mut self,
        at: LoginSlot,
        from: Initiator,
        request: &Request,
        response: &mut [u8; SMALLEST_AREA],
    ) -> Result<usize, Refusal>
        ensures served { Serves (snapshot_of self.old) (login_at (scene B.Bus.model A.Access.model (snapshot_of self.old)) from.node from.eui_64 request.now at.slot (free_handle_place (snapshot_of self.old).book)) result (snapshot_of self.new) }
        ensures area { response.new ≡ stored response.old (login_at (scene B.Bus.model A.Access.model (snapshot_of self.old)) from.node from.eui_64 request.now at.slot (free_handle_place (snapshot_of self.old).book)) }
    {
        let place = self.handle_place()?;
        let stored = self.tell_login(at, place as u16 + 1, request, response);
        self.tables.give_login(at.slot, new_login(from, request));
        self.tables
            .give_handle(place, own_handle(at.login_id(), from.eui_64, from.node));
        Ok(stored)
    }

    pub(crate) fn logout(&mut self, source: NodeId, request: &Request) -> Result<usize, Refusal>
        ensures served { Serves (snapshot_of self.old) (logout_outcome (scene B.Bus.model A.Access.model (snapshot_of self.old)) source request.now) result (snapshot_of self.new) }
        ensures silent { response (logout_outcome (scene B.Bus.model A.Access.model (snapshot_of self.old)) source request.now) ≡ [] }
    {
        let LoginSlot { slot } = self.own_login(source, request.unit_or_login_id)?;
        self.tables.end_login(slot);
        Ok(0)
    }

    pub(crate) fn reconnect(&mut self, from: Initiator, request: &Request) -> Result<usize, Refusal>
        ensures served { Serves (snapshot_of self.old) (reconnect_outcome (scene B.Bus.model A.Access.model (snapshot_of self.old)) from.node from.eui_64 request.now) result (snapshot_of self.new) }
        ensures silent { response (reconnect_outcome (scene B.Bus.model A.Access.model (snapshot_of self.old)) from.node from.eui_64 request.now) ≡ [] }
    {
        let id = request.unit_or_login_id;
        let slot = slot_of(id)?;
        let login = self.tables.login(slot);
        if !login.is_holder() || login.owner_eui_64 != from.eui_64 {
            return Err(Refusal::LoginIdNotRecognized);
        }
        let own = self.tables.find_handle(id, WhichHandle::Own);
        self.tables
            .put_login(slot, login.after(LoginEvent::Reconnect(from.node)));
        if let Some(place) = own {
            self.tables.move_handle(place, from.node);
        }
        Ok(0)
    }
}
