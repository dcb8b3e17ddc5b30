// A record of the journal: one thing that happened, in the order in which it did.
use reader::ids::{Eui64, NodeId};

/// One record. A request's ORB stays a part of the journal that it was read from.
#[derive(Clone, Copy)]
pub enum Record<'a> {
    Request {
        source: NodeId,
        orb_address: u64,
        orb: &'a [u8; 32],
    },
    BusReset,
    NetUpdate,
    Gap,
    Tick,
    AccessChange,
    /// From the next topology on this station is at the node; none for nobody.
    BusNote {
        node: NodeId,
        eui_64: Eui64,
    },
    /// From the next access change on the pair is admitted, or not.
    PairNote {
        eui_64: Eui64,
        unit: u16,
        admitted: bool,
    },
    /// From the next access change on the station is stopped, or not.
    StopNote {
        eui_64: Eui64,
        stopped: bool,
    },
}
