// What changes the tables: places given, logins ended, handles moved and freed, resets, net updates, gaps and ticks.
ghost use Rattle.std.specs.Prelude.{◌≡◌, true, false, map};
ghost use Rattle.logins.specs.Logins.{row_of};
ghost use Rattle.tables.specs.Books.{book_of, with_logins, with_handles};
ghost use Rattle.tables.specs.Events.{given_login, given_handle, moved_handle, swept, swept_book, ended, ticking_so, each_login, net_updated, tick_counted, reset_row, reset_handle, was_reset, kept_row, access_changed};

use crate::book::checked;
use crate::entries::{Entry, Places};
use crate::tables::{HANDLES, LOGINS, Tables};
use access::Access;
use bus::{Bus, local_id};
use logins::rows::{Handle, HandleSweep, Login, LoginEvent, LoginRow};
use reader::ids::NodeId;

impl Tables {
    /// Gives a slot to a login; the next search begins behind it.
    pub fn give_login(&mut self, slot: usize, login: Login)
        ensures { book_of self.new ≡ given_login (book_of self.old) slot (row_of login) }
    {
        self.logins.give(slot, LoginRow::from(login));
    }

    /// Gives a place to a handle; the next search begins behind it.
    pub fn give_handle(&mut self, place: usize, handle: Handle)
        ensures { book_of self.new ≡ given_handle (book_of self.old) place handle }
    {
        self.handles.give(place, handle);
    }

    /// Moves a handle to another node, in its place.
    pub fn move_handle(&mut self, place: usize, node: NodeId)
        ensures { book_of self.new ≡ moved_handle (book_of self.old) place node }
    {
        // By its index: after `get_mut` no clause says what a write leaves in the array.
        if place < HANDLES {
            self.handles.entries[place].node = node;
        }
    }

    /// Frees the handles that are meant.
    pub fn sweep_handles(&mut self, sweep: HandleSweep)
        ensures { book_of self.new ≡ swept_book (book_of self.old) sweep }
    {
        let logins = &self.logins;
        self.handles
            .change_each(|handle| swept(logins, handle, sweep));
    }

    /// Ends the login at a slot, which is then as new, and frees its handles.
    pub fn end_login(&mut self, slot: usize)
        ensures { book_of self.new ≡ ended (book_of self.old) slot }
    {
        self.put_login(slot, Login::free());
        self.sweep_handles(HandleSweep::Orphans);
    }

    fn each_login(&mut self, event: LoginEvent)
        ensures { book_of self.new ≡ each_login (book_of self.old) event }
    {
        self.logins
            .change_each(|row| LoginRow::from(checked(row).after(event)));
    }

    /// A net update: every active login becomes reserved, and only own handles stay, at no node.
    pub fn net_update(&mut self)
        ensures { book_of self.new ≡ net_updated (book_of self.old) }
    {
        self.each_login(LoginEvent::NetUpdate);
        self.sweep_handles(HandleSweep::NetUpdated);
        self.ticking = false;
    }

    /// The first gap after a reset or a net update: ticks count from now on.
    pub fn gap(&mut self)
        ensures { book_of self.new ≡ ticking_so (book_of self.old) true }
    {
        self.ticking = true;
    }

    /// A tick: after the gap each reserved login loses one, and ends at 0.
    pub fn tick(&mut self)
        ensures { book_of self.new ≡ tick_counted (book_of self.old) }
    {
        if self.ticking {
            self.each_login(LoginEvent::Tick);
            self.sweep_handles(HandleSweep::Orphans);
        }
    }

    /// An access change, after it came to the list: every holder that is no longer admitted ends.
    pub fn access_change<A: Access>(&mut self, list: &A)
        ensures { book_of self.new ≡ access_changed (A.Access.model.admits list.now) (book_of self.old) }
    {
        self.keep_admitted(list);
        self.sweep_handles(HandleSweep::Orphans);
    }

    fn keep_admitted<A: Access>(&mut self, list: &A)
        ensures { book_of self.new ≡ with_logins (book_of self.old) (map (kept_row (A.Access.model.admits list.now)) (book_of self.old).logins) }
    {
        self.logins
            .change_each(|row| LoginRow::from(if_admitted(list, checked(row))));
    }

    /// A bus reset, after it came to the bus: unaware logins and those whose owner is gone become reserved, aware
    /// owners and handles are followed on the local bus.
    pub fn reset<B: Bus>(&mut self, bus: &B)
        ensures { book_of self.new ≡ was_reset (B.Bus.model.shows bus.now) (book_of self.old) }
    {
        self.reset_logins(bus);
        self.reset_handles(bus);
        self.ticking = false;
    }

    fn reset_logins<B: Bus>(&mut self, bus: &B)
        ensures { book_of self.new ≡ with_logins (book_of self.old) (map (reset_row (B.Bus.model.shows bus.now)) (book_of self.old).logins) }
    {
        self.logins
            .change_each(|row| LoginRow::from(after_reset(bus, checked(row))));
    }

    fn reset_handles<B: Bus>(&mut self, bus: &B)
        ensures { book_of self.new ≡ with_handles (book_of self.old) (map (reset_handle (B.Bus.model.shows bus.now)) (book_of self.old).handles) }
    {
        self.handles.change_each(|handle| found_again(bus, handle));
    }
}

// A handle at FFC0h to FFFFh goes where the local bus now shows its EUI-64.
fn found_again<B: Bus>(bus: &B, mut handle: Handle) -> Handle
    ensures { result ≡ reset_handle (B.Bus.model.shows bus.now) handle }
{
    if handle.is_in_use() && handle.node.0 >= 0xFFC0 {
        handle.node = local_id(bus, handle.eui_64).unwrap_or(NodeId::NONE);
    }
    handle
}

fn after_reset<B: Bus>(bus: &B, login: Login) -> Login
    ensures { row_of result ≡ reset_row (B.Bus.model.shows bus.now) (row_of login) }
{
    login.after(LoginEvent::Reset(local_id(bus, login.owner_eui_64)))
}

fn if_admitted<A: Access>(list: &A, login: Login) -> Login
    ensures { row_of result ≡ kept_row (A.Access.model.admits list.now) (row_of login) }
{
    if login.is_holder() && !list.admits(login.owner_eui_64, login.unit) {
        Login::free()
    } else {
        login
    }
}

// What a sweep makes of a handle, by the logins.
fn swept(logins: &Places<LoginRow, LOGINS>, handle: Handle, sweep: HandleSweep) -> Handle
    ensures { result ≡ swept logins.now.entries sweep handle }
{
    match sweep {
        HandleSweep::Orphans
            if !logins
                .get(usize::from(handle.login).saturating_sub(1))
                .is_taken() => Handle::free(),
        HandleSweep::AllOf(login) if handle.login == login => Handle::free(),
        HandleSweep::OthersOf(login) if handle.login == login && !handle.own => Handle::free(),
        HandleSweep::NetUpdated if !handle.own => Handle::free(),
        HandleSweep::NetUpdated => Handle {
            node: NodeId::NONE,
            ..handle
        },
        _ => handle,
    }
}
