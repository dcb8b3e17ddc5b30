// Reading, writing and searching the places of one table.
ghost use Rattle.std.specs.Prelude.{◌≡◌, ℕ, ◌<◌, ◌≤◌, cond, IfSome, nat_lt, replicate, slice_index_or, slice_set};
ghost use Rattle.tables.specs.Searches.{after_place, next_free};

use crate::entries::{Entry, Places};

impl<E: Entry, const N: usize> Places<E, N> {
    pub(crate) fn new() -> Places<E, N>
        requires some { 0 < N }
        requires narrow { N ≤ 0xFFFF }
        ensures entries { result.entries ≡ replicate N E.free }
        ensures next { result.next ≡ 0 }
    {
        Places {
            entries: [E::vacant(); N],
            next: 0,
        }
    }

    // Past the last place it is a free one.
    pub(crate) fn get(&self, place: usize) -> E
        ensures { result ≡ slice_index_or self.now.entries place E.free }
    {
        self.entries.get(place).copied().unwrap_or(E::vacant())
    }

    // By its index: after `get_mut` no clause says what a write leaves in the array.
    pub(crate) fn put(&mut self, place: usize, entry: E)
        ensures entries { self.new.entries ≡ slice_set self.old.entries place entry }
        ensures next { self.new.next ≡ self.old.next }
    {
        if place < N {
            self.entries[place] = entry;
        }
    }

    // Gives a place to an entry; the next search begins behind it.
    pub(crate) fn give(&mut self, place: usize, entry: E)
        ensures entries { self.new.entries ≡ slice_set self.old.entries place entry }
        ensures next { self.new.next ≡ cond (nat_lt place N) (after_place N place) self.old.next }
    {
        self.put(place, entry);
        if place < N {
            self.next = after(place, N);
        }
    }

    // A free place, sought from the one after the last that was given, going round once. By a loop: of a `find` on both
    // ranges, one after the other, no proof was found that its closure, which holds the table, makes this test.
    pub(crate) fn first_free(&self) -> Option<usize>
        ensures value { result ≡ next_free (λ k. E.taken (slice_index_or self.now.entries k E.free)) N self.now.next N }
        ensures within { IfSome result (λ k. k < N) }
    {
        let mut place = self.next;
        for _ in 0..N {
            if !self.get(place).is_taken() {
                return Some(place);
            }
            place = after(place, N);
        }
        None
    }

    // Writes over each entry what a step makes of it.
    pub(crate) fn change_each<F: Fn(E) -> E>(&mut self, step: F)
        requires { F.IsAlwaysCallable step }
        ensures entries { (k : ℕ) → k < N → F.post step (slice_index_or self.old.entries k E.free) (slice_index_or self.new.entries k E.free) }
        ensures next { self.new.next ≡ self.old.next }
    {
        for entry in self.entries.iter_mut() {
            *entry = step(*entry);
        }
    }
}

// The place after one, going round.
fn after(place: usize, size: usize) -> usize
    requires { place < size }
    ensures { result ≡ after_place size place }
{
    if place + 1 >= size { 0 } else { place + 1 }
}
