// The target: it serves every call by the rules, over any bus and any access list.
#![tactic(auto)]

mod answer;
pub mod events;
pub mod exchange;
pub mod play;
pub mod steps;
pub mod target;
