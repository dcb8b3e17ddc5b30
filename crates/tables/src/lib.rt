// The tables of a target: who is logged in, which node handles are given, and whose turn a place is.
#![tactic(auto)]

pub mod book;
mod entries;
pub mod events;
pub mod searches;
pub mod tables;
mod turns;
