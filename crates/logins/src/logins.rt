// One login: its state, and what each event makes of it.
ghost use Rattle.std.specs.Prelude.{◌≡◌, true};
ghost use Rattle.logins.specs.Tests.{among};
ghost use Rattle.logins.specs.Logins.{row_of, free_row, state, holder, reserved, held_back, moved, ticked, row_after};

use crate::rows::{Holders, Login, LoginEvent, LoginState};
use reader::ids::{Eui64, NodeId};

impl Login {
    /// A login as new.
    pub fn free() -> Login
        ensures { row_of result ≡ free_row }
    {
        Login {
            unit: 0,
            owner_id: NodeId::NONE,
            owner_eui_64: Eui64::NONE,
            status_fifo: 0,
            exclusive: false,
            aware: false,
            hold: 0,
            ticks_left: 0,
        }
    }

    pub fn state(self) -> LoginState
        ensures { result ≡ state (row_of self) }
    {
        if self.owner_eui_64.is_none() {
            LoginState::Free
        } else if self.owner_id.is_none() {
            LoginState::Reserved
        } else {
            LoginState::Active
        }
    }

    pub fn is_holder(self) -> bool
        ensures { result ≡ holder (row_of self) }
    {
        !self.owner_eui_64.is_none()
    }

    /// Whether it is one of the holders that are meant.
    pub fn is_among(self, holders: Holders) -> bool
        ensures { result ≡ among holders (row_of self) }
    {
        match holders {
            Holders::All => self.is_holder(),
            Holders::OfUnit(unit) => self.is_holder() && self.unit == unit,
            Holders::ExclusiveTo(unit) => self.is_holder() && self.unit == unit && self.exclusive,
            Holders::Owning(eui_64, unit) => self.is_holder()
                && self.unit == unit
                && self.owner_eui_64 == eui_64,
        }
    }

    /// What an event makes of it, by its state.
    pub fn after(self, event: LoginEvent) -> Login
        ensures { row_of result ≡ row_after (row_of self) event }
    {
        match (self.state(), event) {
            (LoginState::Free, _) | (LoginState::Active, LoginEvent::Tick) => self,
            (LoginState::Reserved, LoginEvent::Reset(_)) => self.held_back(),
            (LoginState::Reserved | LoginState::Active, LoginEvent::NetUpdate) => self.held_back(),
            (LoginState::Reserved, LoginEvent::Tick) => self.ticked(),
            (LoginState::Reserved | LoginState::Active, LoginEvent::Reconnect(source)) =>
                self.moved(source),
            (LoginState::Active, LoginEvent::Reset(_)) if !self.aware => self.held_back(),
            (LoginState::Active, LoginEvent::Reset(_)) if !self.owner_id.is_local() => self,
            (LoginState::Active, LoginEvent::Reset(Some(found))) => self.moved(found),
            (LoginState::Active, LoginEvent::Reset(None)) => self.held_back(),
        }
    }

    // Reserved for its owner, from the first gap on.
    fn held_back(mut self) -> Login
        requires { holder (row_of self) ≡ true }
        ensures { row_of result ≡ held_back (row_of self) }
    {
        self.owner_id = NodeId::NONE;
        self.ticks_left = u16::from(self.hold) + 2;
        self
    }

    fn moved(mut self, node: NodeId) -> Login
        requires { holder (row_of self) ≡ true }
        ensures { row_of result ≡ moved (row_of self) node 0 }
    {
        self.owner_id = node;
        self.ticks_left = 0;
        self
    }

    fn ticked(mut self) -> Login
        requires { reserved (row_of self) ≡ true }
        ensures { row_of result ≡ ticked (row_of self) }
    {
        if self.ticks_left <= 1 {
            return Login::free();
        }
        self.ticks_left -= 1;
        self
    }
}
