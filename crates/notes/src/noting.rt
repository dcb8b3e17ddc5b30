// What holds now beside what is noted for the next change, of any kind of table.
ghost use Rattle.std.specs.Prelude.{◌≡◌};
ghost use Rattle.notes.specs.Held.{held};
ghost use Rattle.notes.specs.Tables.{by_key, listed, table_answer, table_after};

use crate::keyed::Keyed;
use crate::slots::Table;
use reader::refusal::Refusal;

/// The table that holds now, and the one that a change brings.
#[derive(Clone, Copy)]
pub struct Notes<T> {
    pub current: T,
    pub noted: T,
}

impl<T: Copy> Notes<T> {
    /// The table holds, and is noted.
    pub fn new(table: T) -> Notes<T>
        ensures current { result.current ≡ table }
        ensures noted { result.noted ≡ table }
    {
        Notes {
            current: table,
            noted: table,
        }
    }

    /// A change: what is noted holds, and the notes last.
    pub fn settle(&mut self)
        ensures current { self.new.current ≡ self.old.noted }
        ensures noted { self.new.noted ≡ self.old.noted }
    {
        self.current = self.noted;
    }
}

impl<E: Keyed + Copy, const N: usize> Notes<Table<E, N>> {
    /// The entry for a key that holds now.
    pub fn find(&self, key: E::Key) -> Option<E>
        ensures { result ≡ listed (by_key E.Keyed.key E.Key.eq) (held self.now.current) key }
    {
        self.current.find(key)
    }

    /// Notes an entry for the next change, in place of one for the same key, or takes that one out.
    pub fn note(&mut self, entry: E, puts_in: bool) -> Result<(), Refusal>
        ensures answer { result ≡ table_answer (by_key E.Keyed.key E.Key.eq) N (held self.old.noted) (E.Keyed.key entry) puts_in }
        ensures current { self.new.current ≡ self.old.current }
        ensures noted { held self.new.noted ≡ table_after (by_key E.Keyed.key E.Key.eq) N (held self.old.noted) (E.Keyed.key entry) entry puts_in }
    {
        self.noted.note(entry, puts_in)
    }
}
