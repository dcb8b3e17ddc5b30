// Node IDs and EUI-64s, the two names of a station: where it is, and who it is.
ghost use Rattle.std.specs.Prelude.{◌≡◌};
ghost use Rattle.reader.specs.Ids.{none_id, local, broadcast, global, none_eui};

/// Where a node stands: FFC0h to FFFEh on the local bus, FFFFh nowhere, and below that on other buses.
#[derive(Clone, Copy, PartialEq, Eq)]
pub struct NodeId(pub u16);

/// Who a node is, wherever it stands; all ones is nobody.
#[derive(Clone, Copy, PartialEq, Eq)]
pub struct Eui64(pub u64);

impl NodeId {
    pub const NONE: NodeId = NodeId(0xFFFF);

    pub fn is_none(self) -> bool
        ensures { result ≡ none_id self }
    {
        self == NodeId::NONE
    }

    pub fn is_local(self) -> bool
        ensures { result ≡ local self }
    {
        (0xFFC0..0xFFFF).contains(&self.0)
    }

    /// Of another bus, for all its nodes.
    pub fn is_broadcast(self) -> bool
        ensures { result ≡ broadcast self }
    {
        self.0 < 0xFFC0 && self.0 % 64 == 63
    }

    /// One node of another bus.
    pub fn is_global(self) -> bool
        ensures { result ≡ global self }
    {
        self.0 < 0xFFC0 && self.0 % 64 != 63
    }
}

// Its `is_none` is a node ID's over again: a trait for the two would be longer than both.
impl Eui64 {
    pub const NONE: Eui64 = Eui64(u64::MAX);

    pub fn is_none(self) -> bool
        ensures { result ≡ none_eui self }
    {
        self == Eui64::NONE
    }
}
