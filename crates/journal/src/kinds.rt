// The byte that each kind of record begins with.
pub(crate) const REQUEST: u8 = 1;

pub(crate) const BUS_RESET: u8 = 2;

pub(crate) const NET_UPDATE: u8 = 3;

pub(crate) const GAP: u8 = 4;

pub(crate) const TICK: u8 = 5;

pub(crate) const ACCESS_CHANGE: u8 = 6;

pub(crate) const BUS_NOTE: u8 = 7;

pub(crate) const PAIR_NOTE: u8 = 8;

pub(crate) const STOP_NOTE: u8 = 9;
