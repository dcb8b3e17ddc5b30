// Refusals: what is wrong, by which number it is told, and which value goes with it.
ghost use Rattle.std.specs.Prelude.{◌≡◌};
ghost use Rattle.reader.specs.Refusals.{number, value, layer};

use crate::ids::NodeId;

/// Every cause for which a call is turned away. Up to 255 they are SBP-3's status codes,
/// from 32 on they are our own; a case holds what its value cannot be told without.
#[derive(Clone, Copy, PartialEq, Eq)]
pub enum Refusal {
    /// rq_fmt is not 0, or the function is unknown.
    RequestTypeNotSupported,
    /// The unit is not to be had by this initiator, or not now.
    AccessDenied(u16),
    LogicalUnitNotSupported,
    /// A table lacks a free place; how many of its places are in use.
    ResourcesUnavailable(u16),
    FunctionRejected,
    LoginIdNotRecognized,
    /// The bus does not show the EUI-64 at the node number.
    UnknownEui64,
    NodeHandleNotRecognized,
    /// Nobody is at the source ID.
    Unspecified(NodeId),
    /// The request is not 32 bytes; its length.
    RequestLength(usize),
    /// The response area is too short; its length.
    ResponseArea(usize),
    /// The status area is too short; its length.
    StatusArea(usize),
    /// The ORB address is too high or no multiple of 4.
    OrbAddress(u64),
    /// A noted value is outside its range.
    OutOfRange(u64),
    /// The EUI-64 is noted at another local ID already.
    NotedElsewhere(NodeId),
    /// The table of notes is full; its size.
    TableFull(u16),
    /// No record begins at this place of the journal.
    MalformedRecord(usize),
    /// The journal is longer than a journal or its output area may be; its length.
    JournalTooLong(usize),
}

/// The part of the agent that refuses.
#[derive(Clone, Copy, PartialEq, Eq)]
pub enum Layer {
    Areas,
    Request,
    Bus,
    Access,
    Tables,
    Notes,
    Journal,
}

impl Refusal {
    /// The number that stands in a status block or a listing.
    pub fn number(self) -> u8
        ensures { result ≡ number self }
    {
        match self {
            Refusal::RequestTypeNotSupported => 1,
            Refusal::AccessDenied(_) => 4,
            Refusal::LogicalUnitNotSupported => 5,
            Refusal::ResourcesUnavailable(_) => 8,
            Refusal::FunctionRejected => 9,
            Refusal::LoginIdNotRecognized => 10,
            Refusal::UnknownEui64 => 13,
            Refusal::NodeHandleNotRecognized => 14,
            Refusal::RequestLength(_) => 32,
            Refusal::ResponseArea(_) => 33,
            Refusal::StatusArea(_) => 34,
            Refusal::OrbAddress(_) => 35,
            Refusal::OutOfRange(_) => 36,
            Refusal::NotedElsewhere(_) => 37,
            Refusal::TableFull(_) => 38,
            Refusal::MalformedRecord(_) => 39,
            Refusal::JournalTooLong(_) => 40,
            Refusal::Unspecified(_) => 255,
        }
    }

    /// What the refusal returns with its number.
    pub fn value(self) -> u64
        ensures { result ≡ value self }
    {
        match self {
            Refusal::RequestTypeNotSupported
            | Refusal::LogicalUnitNotSupported
            | Refusal::FunctionRejected
            | Refusal::LoginIdNotRecognized => 16,
            Refusal::UnknownEui64 | Refusal::NodeHandleNotRecognized => 20,
            Refusal::AccessDenied(unit) => u64::from(unit),
            Refusal::ResourcesUnavailable(in_use) => u64::from(in_use),
            Refusal::Unspecified(source) => u64::from(source.0),
            Refusal::NotedElsewhere(node) => u64::from(node.0),
            Refusal::TableFull(size) => u64::from(size),
            Refusal::OrbAddress(address) => address,
            Refusal::OutOfRange(noted) => noted,
            Refusal::RequestLength(length) => length as u64,
            Refusal::ResponseArea(length) => length as u64,
            Refusal::StatusArea(length) => length as u64,
            Refusal::MalformedRecord(place) => place as u64,
            Refusal::JournalTooLong(length) => length as u64,
        }
    }

    /// Who refuses.
    pub fn layer(self) -> Layer
        ensures { result ≡ layer self }
    {
        match self {
            Refusal::RequestLength(_)
            | Refusal::ResponseArea(_)
            | Refusal::StatusArea(_)
            | Refusal::OrbAddress(_) => Layer::Areas,
            Refusal::Unspecified(_) => Layer::Bus,
            Refusal::AccessDenied(_) => Layer::Access,
            Refusal::ResourcesUnavailable(_) => Layer::Tables,
            Refusal::OutOfRange(_) | Refusal::NotedElsewhere(_) | Refusal::TableFull(_) =>
                Layer::Notes,
            Refusal::MalformedRecord(_) | Refusal::JournalTooLong(_) => Layer::Journal,
            Refusal::RequestTypeNotSupported
            | Refusal::LogicalUnitNotSupported
            | Refusal::FunctionRejected
            | Refusal::LoginIdNotRecognized
            | Refusal::UnknownEui64
            | Refusal::NodeHandleNotRecognized => Layer::Request,
        }
    }
}
