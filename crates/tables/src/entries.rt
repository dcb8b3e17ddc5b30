// The places of one table. The functions on them stand apart, with the definitions that name this type.
ghost use Rattle.std.specs.Prelude.{◌≡◌, ◌<◌, ◌≤◌, Bool, length};
ghost use Rattle.logins.specs.Logins.{free_row, holder};
ghost use Rattle.logins.specs.Rows.{free_handle, in_use};

use logins::rows::{Handle, Login, LoginRow};
use std::alloc::AllocError;

// What stands at a place, which is free or taken.
pub(crate) trait Entry: Copy {
    ghost free: { Self };

    ghost taken: { Self → Bool };

    fn vacant() -> Self
        ensures { result ≡ free };

    fn is_taken(&self) -> bool
        ensures { result ≡ taken self.now };
}

// Each place's entry, and where the next search for a free place begins. A count of them fits in 16 bits.
#[derive(Copy)]
pub(crate) struct Places<E, const N: usize> {
    pub(crate) entries: [E; N],
    pub(crate) next: usize,
    ghost size: { length entries ≡ N },
    ghost turn: { next < N },
    ghost narrow: { N ≤ 0xFFFF },
}

// no `Clone` is derived over ghost fields
impl<E: Copy, const N: usize> Clone for Places<E, N> {
    ghost is_clone = { λ x y. y ≡ x };

    ghost is_infallible = { λ _. Unit {0} };

    fn clone(&self) -> Result<Places<E, N>, AllocError> {
        Ok(*self)
    }
}

impl Entry for LoginRow {
    ghost free = { free_row };

    ghost taken = { holder };

    fn vacant() -> LoginRow {
        LoginRow::from(Login::free())
    }

    fn is_taken(&self) -> bool {
        !self.owner_eui_64.is_none()
    }
}

impl Entry for Handle {
    ghost free = { free_handle };

    ghost taken = { in_use };

    fn vacant() -> Handle {
        Handle::free()
    }

    fn is_taken(&self) -> bool {
        self.is_in_use()
    }
}
