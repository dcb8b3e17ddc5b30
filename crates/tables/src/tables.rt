// The two tables. What is done with them stands apart, with the definitions that name this type.
ghost use Rattle.logins.specs.Rows.{SoundRows};

use crate::entries::Places;
use logins::rows::{Handle, LoginRow};

pub const LOGINS: usize = 16;

pub const HANDLES: usize = 32;

/// The logins by slot and the handles by place, and whether ticks count.
#[derive(Clone, Copy)]
pub struct Tables {
    pub(crate) logins: Places<LoginRow, LOGINS>,
    pub(crate) handles: Places<Handle, HANDLES>,
    pub(crate) ticking: bool,
    ghost sound: { SoundRows logins.entries },
}
