// A journal in words, for support and field engineers.
#![tactic(auto)]

pub mod lines;
pub mod requests;
