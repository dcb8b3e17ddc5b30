// The laws of the access lists: what is noted comes true.
#![tactic(auto)]

pub mod changes;
