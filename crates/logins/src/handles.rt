// One node handle: a free one, and whether it is one that is meant.
ghost use Rattle.std.specs.Prelude.{◌≡◌};
ghost use Rattle.logins.specs.Rows.{free_handle, in_use};
ghost use Rattle.logins.specs.Tests.{meant};

use crate::rows::{Handle, WhichHandle};
use reader::ids::{Eui64, NodeId};

impl Handle {
    pub fn free() -> Handle
        ensures { result ≡ free_handle }
    {
        Handle {
            login: 0,
            eui_64: Eui64::NONE,
            node: NodeId::NONE,
            own: false,
        }
    }

    pub fn is_in_use(self) -> bool
        ensures { result ≡ in_use self }
    {
        self.login != 0
    }

    /// Whether it is the handle of the login that is meant.
    pub fn is_meant(self, login: u16, which: WhichHandle) -> bool
        ensures { result ≡ meant login which self }
    {
        match which {
            WhichHandle::For(eui_64) => self.login == login && self.eui_64 == eui_64,
            WhichHandle::Own => self.login == login && self.own,
        }
    }
}
