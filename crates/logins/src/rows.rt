// A login as a plain row of the table and as a checked record, and a node handle. What is done with them stands apart,
// with the definitions that name these types.
ghost use Rattle.std.specs.Prelude.{◌≡◌, true, false};
ghost use Rattle.reader.specs.Ids.{none_id, none_eui};
ghost use Rattle.logins.specs.Owners.{waiting};

use reader::ids::{Eui64, NodeId};

/// A login as the table holds it. It is free with both owner fields none, reserved with only the owner ID none, and
/// otherwise active; a holder is a login not free. None is a value of its field and no `Option`: the rules want plain
/// rows, in which nobody and nowhere are numbers too.
#[derive(Clone, Copy, PartialEq, Eq)]
pub struct LoginRow {
    pub unit: u16,
    pub owner_id: NodeId,
    pub owner_eui_64: Eui64,
    pub status_fifo: u64,
    pub exclusive: bool,
    pub aware: bool,
    pub hold: u8,
    pub ticks_left: u16,
}

/// A login that was checked, with a row's fields over again: a record is made from a plain row by a check. No owner ID
/// stands without an owner EUI-64, and ticks are left only while it is reserved.
#[derive(Clone, Copy, PartialEq, Eq)]
pub struct Login {
    pub unit: u16,
    pub owner_id: NodeId,
    pub owner_eui_64: Eui64,
    pub status_fifo: u64,
    pub exclusive: bool,
    pub aware: bool,
    pub hold: u8,
    pub ticks_left: u16,
    ghost owned: { (none_eui owner_eui_64 ≡ true → none_id owner_id ≡ true) },
    ghost timed: { (waiting owner_id owner_eui_64 ≡ false → ticks_left ≡ 0) },
}

/// What is wrong with a row that is no record.
#[derive(Clone, Copy, PartialEq, Eq)]
pub enum UnsoundRow {
    /// An owner ID without an owner EUI-64.
    NodeOfNobody,
    /// Ticks left of a login that is not reserved.
    TicksNotReserved,
}

#[derive(Clone, Copy, PartialEq, Eq)]
pub enum LoginState {
    Free,
    Reserved,
    Active,
}

/// What happens to a login: a value, since one match goes by it and by the login's state together. A reset brings the local
/// ID that now shows its owner, a reconnect the source ID.
#[derive(Clone, Copy, PartialEq, Eq)]
pub enum LoginEvent {
    Reset(Option<NodeId>),
    NetUpdate,
    Tick,
    Reconnect(NodeId),
}

/// A node handle of a login, by login ID; 0 is none, and the handle free, since it is a plain row too.
#[derive(Clone, Copy, PartialEq, Eq)]
pub struct Handle {
    pub login: u16,
    pub eui_64: Eui64,
    pub node: NodeId,
    pub own: bool,
}

/// Which holders are meant: a value, and no closure, so that one definition says what each count of them is.
#[derive(Clone, Copy, PartialEq, Eq)]
pub enum Holders {
    All,
    OfUnit(u16),
    /// Those that claim the unit alone.
    ExclusiveTo(u16),
    /// The initiator's own of the unit.
    Owning(Eui64, u16),
}

/// Which handle of a login is meant: a value, and no closure, for the same reason.
#[derive(Clone, Copy, PartialEq, Eq)]
pub enum WhichHandle {
    For(Eui64),
    Own,
}

/// Which handles are freed: those whose login has ended, all of a login or all but its own, or at a net update all but
/// own ones. A value, and no closure, for the same reason.
#[derive(Clone, Copy, PartialEq, Eq)]
pub enum HandleSweep {
    Orphans,
    AllOf(u16),
    OthersOf(u16),
    NetUpdated,
}
