// A journal run through a new cabinet, and its listing.
#![tactic(auto)]

pub mod cabinet;
pub mod calls;
pub mod driving;
pub mod laws;
pub mod listing;
