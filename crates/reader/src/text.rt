// Node IDs, EUI-64s and refusals as text, for whoever reads a journal.
ghost use Rattle.std.specs.Prelude.{◌≡◌, Some};
ghost use Rattle.reader.specs.Texts.{hex2, id_text, eui_text, refusal_words, refusal_text};

use crate::ids::{Eui64, NodeId};
use crate::refusal::Refusal;
use std::fmt;

/// A byte as two digits.
#[derive(Clone, Copy)]
pub struct HexByte(pub u8);

impl fmt::Display for HexByte {
    ghost output = { λ b. Some (hex2 b.0) };

    fn fmt<W: fmt::Write>(&self, f: &mut fmt::Formatter<W>) -> fmt::Result {
        let byte = self.0;
        write!(f, "{byte:02X}")
    }
}

impl fmt::Display for NodeId {
    ghost output = { λ n. Some (id_text n) };

    fn fmt<W: fmt::Write>(&self, f: &mut fmt::Formatter<W>) -> fmt::Result {
        let id = self.0;
        write!(f, "{id:04X}")
    }
}

impl fmt::Display for Eui64 {
    ghost output = { λ e. Some (eui_text e) };

    fn fmt<W: fmt::Write>(&self, f: &mut fmt::Formatter<W>) -> fmt::Result {
        let id = self.0;
        write!(f, "{id:016X}")
    }
}

impl Refusal {
    // Its name, in the standard's words where it has them, and what its value tells.
    fn words(self) -> (&'static str, &'static str)
        ensures { (result.0.now, result.1.now) ≡ refusal_words self }
    {
        match self {
            Refusal::RequestTypeNotSupported => (
                "request type not supported",
                "unknown format or function; request byte",
            ),
            Refusal::AccessDenied(_) => (
                "access denied",
                "not admitted, or claimed by another; unit",
            ),
            Refusal::LogicalUnitNotSupported => (
                "logical unit not supported",
                "no such unit; request byte",
            ),
            Refusal::ResourcesUnavailable(_) => ("resources unavailable", "no free place; in use"),
            Refusal::FunctionRejected => (
                "function rejected",
                "not allowed here, or too short a response; request byte",
            ),
            Refusal::LoginIdNotRecognized => (
                "login ID not recognized",
                "no such login of this station; request byte",
            ),
            Refusal::UnknownEui64 => (
                "unknown EUI-64",
                "the bus does not show it at that node; request byte",
            ),
            Refusal::NodeHandleNotRecognized => (
                "node handle not recognized",
                "no such handle of this login; request byte",
            ),
            Refusal::Unspecified(_) => ("unspecified error", "nobody is at node"),
            Refusal::RequestLength(_) => ("wrong request length", "32 bytes are needed; given"),
            Refusal::ResponseArea(_) => ("response area too short", "196 bytes are needed; given"),
            Refusal::StatusArea(_) => ("status area too short", "8 bytes are needed; given"),
            Refusal::OrbAddress(_) => (
                "wrong ORB address",
                "above FFFFFFFFFFFC or no multiple of 4; address",
            ),
            Refusal::OutOfRange(_) => ("out of range", "it cannot be noted; value"),
            Refusal::NotedElsewhere(_) => ("noted elsewhere", "that station is noted at node"),
            Refusal::TableFull(_) => ("table full", "all places are taken; size"),
            Refusal::MalformedRecord(_) => ("malformed record", "none begins at byte"),
            Refusal::JournalTooLong(_) => (
                "journal too long",
                "more bytes than there is room for; length",
            ),
        }
    }
}

impl fmt::Display for Refusal {
    ghost output = { λ r. Some (refusal_text r) };

    fn fmt<W: fmt::Write>(&self, f: &mut fmt::Formatter<W>) -> fmt::Result {
        let (name, about) = self.words();
        write!(f, "{name} ({}): {about} ", self.number())?;
        match *self {
            Refusal::Unspecified(node) | Refusal::NotedElsewhere(node) => write!(f, "{node}"),
            Refusal::OrbAddress(address) => write!(f, "{}", Eui64(address)),
            _ => write!(f, "{}", self.value()),
        }
    }
}
