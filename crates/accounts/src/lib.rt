// A journal that is run through a new cabinet, told record by record: for programs, and for support and field engineers.
#![tactic(auto)]

pub mod accounting;
mod records;
pub mod tracing;
