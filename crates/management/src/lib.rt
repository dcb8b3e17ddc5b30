// The management agent: it serves every request by the rules, over any bus and any access list.
#![tactic(auto)]

mod asking;
mod handles;
mod login;
pub mod parts;
pub mod requests;
mod updates;
