// The laws of the buses: what is noted comes true.
#![tactic(auto)]

pub mod topology;
