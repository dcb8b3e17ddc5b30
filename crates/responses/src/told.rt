// What a login response tells. How it is written stands apart, with the definitions that name this type.
use reader::ids::NodeId;

/// The target's own ID, the slot that the login stands at, its own handle (0 is none, as in the bytes), its hold, and the
/// room that the initiator has for the response.
#[derive(Clone, Copy)]
pub struct LoginTold {
    pub own: NodeId,
    pub slot: u16,
    pub handle: u16,
    pub hold: u8,
    pub room: u16,
}
