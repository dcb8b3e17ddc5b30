// A table of notes, of any entries and any size.
ghost use Rattle.std.specs.Prelude.{◌≡◌, ◌+◌, ◌<◌, [], ◌∷◌, ◌++◌};
ghost use Rattle.notes.specs.Held.{held};
ghost use Rattle.notes.specs.Tables.{by_key, listed, others, table_answer, table_after};

use crate::keyed::Keyed;
use crate::slots::Table;
use reader::refusal::Refusal;

impl<E: Keyed + Copy, const N: usize> Table<E, N> {
    /// The places hold `free` as long as they are free.
    pub fn empty(free: E) -> Table<E, N>
        ensures { held result ≡ [] }
    {
        let entries = [free; N];
        Table { entries, count: 0 }
    }

    fn in_use(&self) -> &[E]
        ensures { result.now ≡ held self.now }
    {
        let places = &self.entries[..];
        &places[0..self.count]
    }

    /// The entry for a key.
    pub fn find(&self, key: E::Key) -> Option<E>
        ensures { result ≡ listed (by_key E.Keyed.key E.Key.eq) (held self.now) key }
    {
        self.in_use().iter().find(|e| e.is_for(&key)).copied()
    }

    /// The entries for other keys.
    fn without(&self, key: E::Key) -> Table<E, N>
        ensures { held result ≡ others (by_key E.Keyed.key E.Key.eq) (held self.now) key }
    {
        let mut rest = Table {
            entries: self.entries,
            count: 0,
        };
        for e in self.in_use() {
            if !e.is_for(&key) {
                rest.push(*e);
            }
        }
        rest
    }

    /// Puts an entry behind the others.
    fn push(&mut self, entry: E)
        requires { self.old.count < N }
        ensures count { self.new.count ≡ self.old.count + 1 }
        ensures held { held self.new ≡ held self.old ++ entry ∷ [] }
    {
        self.entries[self.count] = entry;
        self.count += 1;
    }

    /// Puts an entry in, in place of one for the same key, or takes that one out.
    pub fn note(&mut self, entry: E, puts_in: bool) -> Result<(), Refusal>
        ensures answer { result ≡ table_answer (by_key E.Keyed.key E.Key.eq) N (held self.old) (E.Keyed.key entry) puts_in }
        ensures after { held self.new ≡ table_after (by_key E.Keyed.key E.Key.eq) N (held self.old) (E.Keyed.key entry) entry puts_in }
    {
        let mut next = self.without(entry.key());
        if puts_in {
            if next.count == N {
                // a refusal tells the size in 16 bits
                return Err(Refusal::TableFull(u16::try_from(N).unwrap_or(u16::MAX)));
            }
            next.push(entry);
        }
        *self = next;
        Ok(())
    }
}
