// Who asks, and for which login.
ghost use Rattle.std.specs.Prelude.{◌≡◌, ◌+◌, ◌<◌, false};
ghost use Rattle.reader.specs.Ids.{none_eui};
ghost use Rattle.logins.specs.Rows.{logins_size};

use reader::ids::{Eui64, NodeId};

/// A station that asks: where it is, and who it is. All ones would be nobody.
#[derive(Clone, Copy)]
pub(crate) struct Initiator {
    pub(crate) node: NodeId,
    pub(crate) eui_64: Eui64,
    ghost somebody: { none_eui eui_64 ≡ false },
}

/// A slot of the login table, which a station knows by a login ID.
#[derive(Clone, Copy)]
pub(crate) struct LoginSlot {
    pub(crate) slot: usize,
    ghost within: { slot < logins_size },
}

impl LoginSlot {
    // One more than the slot.
    pub(crate) fn login_id(self) -> u16
        ensures { result ≡ self.slot + 1 }
    {
        self.slot as u16 + 1
    }
}
