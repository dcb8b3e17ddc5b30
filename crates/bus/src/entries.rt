// The entries of a portal's tables.
use notes::keyed::Keyed;
use reader::ids::{Eui64, NodeId};

pub const SIZE: usize = 32;

/// Who is at a global ID.
#[derive(Clone, Copy)]
pub struct Entry {
    pub node: NodeId,
    pub eui: Eui64,
}

impl Keyed for Entry {
    type Key = NodeId;

    ghost key = { λ e. e.node };

    fn key(&self) -> NodeId {
        self.node
    }
}
