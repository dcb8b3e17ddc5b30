// What a target is asked and told, and what it answers.
use reader::ids::{Eui64, NodeId};
use reader::refusal::Refusal;
use reader::request::Request;

/// A call; `N` is the access list's own type of notes.
#[derive(Clone, Copy)]
pub enum Call<N> {
    Request(NodeId, Request),
    BusReset,
    NetUpdate,
    Gap,
    Tick,
    AccessChange,
    BusNote(NodeId, Option<Eui64>),
    AccessNote(N),
}

/// What a call is answered: it is granted, or refused.
pub type Answer = Result<(), Refusal>;
