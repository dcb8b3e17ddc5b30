// The rules of every call, as definitions, and what follows from them.
#![tactic(auto)]

pub mod calls;
pub mod laws;
