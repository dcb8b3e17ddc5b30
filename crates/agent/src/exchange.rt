// The three states of an exchange with a station: moved from one to the next, and of plain numbers, by a rule of the
// project. What moves one to the next stands apart, with the definitions that name these types.
use reader::ids::NodeId;

/// An exchange that waits for a signal. Its only next calls are `signal` and `end`.
pub struct Idle {
    /// How many exchanges were closed.
    pub(crate) closed: u64,
}

/// An exchange whose request waits to be served. Its only next call is `answer`.
pub struct Signalled {
    pub(crate) closed: u64,
    pub(crate) source: NodeId,
    pub(crate) orb_address: u64,
}

/// An exchange whose station waits for its status. Its only next call is `close`.
pub struct Answered {
    pub(crate) closed: u64,
    pub(crate) orb_address: u64,
    pub(crate) status: u8,
    pub(crate) notify: bool,
}
