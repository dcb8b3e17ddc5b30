// Counting holders and handles, and looking for a free place or for a handle.
ghost use Rattle.std.specs.Prelude.{◌≡◌, ◌<◌, IfSome};
ghost use Rattle.logins.specs.Rows.{logins_size, handles_size, in_use};
ghost use Rattle.logins.specs.Tests.{among, meant};
ghost use Rattle.tables.specs.Books.{book_of};
ghost use Rattle.tables.specs.Searches.{count, first, free_login, free_handle_place};

use crate::book::checked;
use crate::tables::Tables;
use logins::rows::{Holders, WhichHandle};

// A place is a plain number in all calls, since each takes any: past the last place stands a free entry.
impl Tables {
    /// How many holders there are of those that are meant.
    pub fn count_holders(&self, holders: Holders) -> u16
        ensures { result ≡ count (among holders) (book_of self.now).logins }
    {
        self.logins
            .entries
            .iter()
            .filter(|row| checked(**row).is_among(holders))
            .count() as u16
    }

    /// How many handles are in use.
    pub fn count_handles(&self) -> u16
        ensures { result ≡ count in_use (book_of self.now).handles }
    {
        self.handles
            .entries
            .iter()
            .filter(|handle| handle.is_in_use())
            .count() as u16
    }

    /// The place of the handle of a login that is meant.
    pub fn find_handle(&self, login: u16, which: WhichHandle) -> Option<usize>
        ensures value { result ≡ first (meant login which) 0 (book_of self.now).handles }
        ensures within { IfSome result (λ k. k < handles_size) }
    {
        self.handles
            .entries
            .iter()
            .position(|handle| handle.is_meant(login, which))
    }

    /// A free slot, sought from the one after the last that was given, going round once.
    pub fn free_login(&self) -> Option<usize>
        ensures value { result ≡ free_login (book_of self.now) }
        ensures within { IfSome result (λ k. k < logins_size) }
    {
        self.logins.first_free()
    }

    /// A free place for a handle, sought in the same way.
    pub fn free_handle(&self) -> Option<usize>
        ensures value { result ≡ free_handle_place (book_of self.now) }
        ensures within { IfSome result (λ k. k < handles_size) }
    {
        self.handles.first_free()
    }
}
