// The places of a table of notes. The functions on them stand apart, with the definitions that name this type.
ghost use Rattle.std.specs.Prelude.{◌≡◌, ◌≤◌, length};

use std::alloc::AllocError;

/// The first `count` entries are in use, in the order of noting. An array and a count, since there is
/// no heap and a table is copied when its notes come true; an `ArrayVec` is not `Copy`.
#[derive(Copy)]
pub struct Table<E, const N: usize> {
    pub(crate) entries: [E; N],
    pub(crate) count: usize,
    ghost size: { length entries ≡ N },
    ghost within: { count ≤ N },
}

// no `Clone` is derived over ghost fields
impl<E: Copy, const N: usize> Clone for Table<E, N> {
    ghost is_clone = { λ x y. y ≡ x };

    ghost is_infallible = { λ _. Unit {0} };

    fn clone(&self) -> Result<Table<E, N>, AllocError> {
        Ok(*self)
    }
}
