// The responses that a station is sent, written at the front of a lent area.
#![tactic(auto)]

pub mod queries;
pub mod told;
pub mod writing;
