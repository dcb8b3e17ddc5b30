// What a record did, as text: for programs, and for support and field engineers.
#![tactic(auto)]

pub mod account;
pub mod drawn;
pub mod holders;
mod lists;
pub mod trace;
