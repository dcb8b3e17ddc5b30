// The words that every layer shares, and the two byte formats of the wire: requests and status blocks.
#![tactic(auto)]

pub mod ids;
pub mod link;
pub mod refusal;
pub mod request;
pub mod status;
pub mod text;
