// Reading and writing one login or one handle.
ghost use Rattle.std.specs.Prelude.{◌≡◌};
ghost use Rattle.logins.specs.Logins.{row_of};
ghost use Rattle.logins.specs.Rows.{row_at, handle_at};
ghost use Rattle.tables.specs.Records.{mended};
ghost use Rattle.tables.specs.Books.{book_of, new_book, put_login, put_handle};

use crate::entries::Places;
use crate::tables::Tables;
use logins::rows::{Handle, Login, LoginRow};

impl Tables {
    /// The tables of a new target.
    pub fn new() -> Tables
        ensures { book_of result ≡ new_book }
    {
        Tables {
            logins: Places::new(),
            handles: Places::new(),
            ticking: false,
        }
    }

    /// The login at a slot; past the last slot it is a free one.
    pub fn login(&self, slot: usize) -> Login
        ensures { row_of result ≡ row_at (book_of self.now).logins slot }
    {
        checked(self.logins.get(slot))
    }

    /// Writes a login over a slot, whole.
    pub fn put_login(&mut self, slot: usize, login: Login)
        ensures { book_of self.new ≡ put_login (book_of self.old) slot (row_of login) }
    {
        self.logins.put(slot, LoginRow::from(login));
    }

    /// The handle at a place; past the last place it is a free one.
    pub fn handle(&self, place: usize) -> Handle
        ensures { result ≡ handle_at (book_of self.now).handles place }
    {
        self.handles.get(place)
    }

    pub fn put_handle(&mut self, place: usize, handle: Handle)
        ensures { book_of self.new ≡ put_handle (book_of self.old) place handle }
    {
        self.handles.put(place, handle);
    }

    /// The slot at which the next search for a free login begins.
    pub fn next_login(&self) -> usize
        ensures { result ≡ (book_of self.now).next_login }
    {
        self.logins.next
    }

    /// The place at which the next search for a free handle begins.
    pub fn next_handle(&self) -> usize
        ensures { result ≡ (book_of self.now).next_handle }
    {
        self.handles.next
    }

    /// Whether ticks count: a gap came since the last reset or net update.
    pub fn is_ticking(&self) -> bool
        ensures { result ≡ (book_of self.now).ticking }
    {
        self.ticking
    }
}

// The record of a row; the rows of the tables all become one.
pub(crate) fn checked(row: LoginRow) -> Login
    ensures { row_of result ≡ mended row }
{
    Login::try_from(row).unwrap_or(Login::free())
}
