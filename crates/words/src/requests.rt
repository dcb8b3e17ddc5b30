// Requests in words: what the station asks for, with the fields that this request uses.
ghost use Rattle.std.specs.Prelude.{◌≡◌, Some};
ghost use Rattle.words.specs.Requests.{format_text, login_text, handle_text, function_text, request_text};

use reader::ids::{Eui64, NodeId};
use reader::request::{Function, Request};
use std::fmt;

/// A request, as a phrase.
#[derive(Clone, Copy)]
pub struct RequestWords(pub Request);

// A login or an update.
#[derive(Clone, Copy)]
struct LoginWords(Request);

// Taking or giving back a node handle.
#[derive(Clone, Copy)]
struct HandleWords(Request);

// What the function asks for.
#[derive(Clone, Copy)]
struct FunctionWords(Request);

fn format(rq_fmt: u8) -> &'static str
    ensures { result.now ≡ format_text rq_fmt }
{
    match rq_fmt {
        0 => "",
        1 => ", format 1",
        2 => ", format 2",
        _ => ", format 3",
    }
}

impl fmt::Display for LoginWords {
    ghost output = { λ w. Some (login_text w.0) };

    #[tactic(auto, unfolding(crate::specs::Requests::login_text))]
    fn fmt<W: fmt::Write>(&self, f: &mut fmt::Formatter<W>) -> fmt::Result {
        let verb = if self.0.update {
            "update login"
        } else {
            "login to unit"
        };
        let exclusive = if self.0.exclusive_or_allocate {
            ", exclusive"
        } else {
            ""
        };
        let aware = if self.0.aware { ", aware" } else { "" };
        write!(
            f,
            "{verb} {}{exclusive}{aware}, hold {}, length {}",
            self.0.unit_or_login_id,
            self.0.hold(),
            self.0.response_length
        )
    }
}

impl fmt::Display for HandleWords {
    ghost output = { λ w. Some (handle_text w.0) };

    #[tactic(auto, unfolding(crate::specs::Requests::handle_text))]
    fn fmt<W: fmt::Write>(&self, f: &mut fmt::Formatter<W>) -> fmt::Result {
        let login = self.0.unit_or_login_id;
        let handle = self.0.node_or_handle;
        if self.0.exclusive_or_allocate {
            return write!(
                f,
                "allocate a node handle to login {login}, {} at {}, length {}",
                self.0.eui_64,
                NodeId(handle),
                self.0.response_length
            );
        }
        if handle == 0xFFFF {
            return write!(f, "release all node handles but its own of login {login}");
        }
        write!(f, "release node handle {handle} of login {login}")
    }
}

impl fmt::Display for FunctionWords {
    ghost output = { λ w. Some (function_text w.0.function w.0) };

    #[tactic(auto, unfolding(crate::specs::Requests::function_text))]
    fn fmt<W: fmt::Write>(&self, f: &mut fmt::Formatter<W>) -> fmt::Result {
        let number = self.0.unit_or_login_id;
        match self.0.function {
            Function::Login => write!(f, "{}", LoginWords(self.0)),
            Function::QueryLogins => write!(
                f,
                "query the logins of unit {number}, length {}",
                self.0.response_length
            ),
            Function::Reconnect => write!(f, "reconnect login {number}"),
            Function::NodeHandle => write!(f, "{}", HandleWords(self.0)),
            Function::Logout => write!(f, "log out login {number}"),
            Function::Unknown(function) => write!(f, "unknown function {function}"),
        }
    }
}

impl fmt::Display for RequestWords {
    ghost output = { λ w. Some (request_text w.0) };

    #[tactic(auto, unfolding(crate::specs::Requests::request_text))]
    fn fmt<W: fmt::Write>(&self, f: &mut fmt::Formatter<W>) -> fmt::Result {
        let notify = if self.0.notify { ", notify" } else { "" };
        write!(
            f,
            "{}{}{notify}, FIFO {}",
            FunctionWords(self.0),
            format(self.0.rq_fmt),
            Eui64(self.0.status_fifo)
        )
    }
}
