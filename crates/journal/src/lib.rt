// The journal: what happened to a cabinet, one record after another, in bytes.
#![tactic(auto)]

mod kinds;
mod numbers;
pub mod reading;
pub mod record;
pub mod trips;
pub mod writing;
