// The request (ORB): 32 bytes from a station, read into fields.
ghost use Rattle.std.specs.Prelude.{◌≡◌, ℕ, ◌+◌, ◌<◌, ◌≤◌, slice_index};
ghost use Rattle.reader.specs.Quadlets.{bit};
ghost use Rattle.reader.specs.Requests.{function_in, function_number, request_in, request_read, hold_asked, HoldLaw};

use crate::ids::Eui64;
use crate::refusal::Refusal;

/// What a request asks for.
#[derive(Clone, Copy, PartialEq, Eq)]
pub enum Function {
    Login,
    QueryLogins,
    Reconnect,
    NodeHandle,
    Logout,
    /// A number from 0 to 15 that is none of the above.
    Unknown(u8),
}

/// The fields of a request. Some have two names, since two functions use the same bits.
#[derive(Clone, Copy, PartialEq, Eq)]
pub struct Request {
    pub eui_64: Eui64,
    pub notify: bool,
    pub rq_fmt: u8,
    pub exclusive_or_allocate: bool,
    pub aware: bool,
    pub update: bool,
    pub reconnect: u8,
    pub function: Function,
    pub unit_or_login_id: u16,
    pub node_or_handle: u16,
    pub response_length: u16,
    pub status_fifo: u64,
}

impl From<u8> for Function {
    ghost from_gives = { λ n f. f ≡ function_in n };

    fn from(number: u8) -> Function {
        match number {
            0 => Function::Login,
            1 => Function::QueryLogins,
            3 => Function::Reconnect,
            5 => Function::NodeHandle,
            7 => Function::Logout,
            other => Function::Unknown(other),
        }
    }
}

/// The number that stands in the request.
impl From<Function> for u8 {
    ghost from_gives = { λ f n. n ≡ function_number f };

    fn from(function: Function) -> u8 {
        match function {
            Function::Login => 0,
            Function::QueryLogins => 1,
            Function::Reconnect => 3,
            Function::NodeHandle => 5,
            Function::Logout => 7,
            Function::Unknown(other) => other,
        }
    }
}

impl From<&[u8; 32]> for Request {
    ghost from_gives = { λ orb q. q ≡ request_in orb.now };

    fn from(orb: &[u8; 32]) -> Request {
        let word = u32::from_be_bytes(bytes_at(orb, 16));
        Request {
            eui_64: Eui64(u64::from_be_bytes(bytes_at(orb, 0))),
            notify: flag(word, 31),
            rq_fmt: ((word >> 29) & 0b11) as u8,
            exclusive_or_allocate: flag(word, 28),
            aware: flag(word, 27),
            update: flag(word, 26),
            reconnect: ((word >> 20) & 0xF) as u8,
            function: Function::from(((word >> 16) & 0xF) as u8),
            unit_or_login_id: (word & 0xFFFF) as u16,
            node_or_handle: u16::from_be_bytes(bytes_at(orb, 20)),
            response_length: u16::from_be_bytes(bytes_at(orb, 22)),
            status_fifo: u64::from_be_bytes(bytes_at(orb, 24)),
        }
    }
}

impl Request {
    /// The fields of 32 bytes; any other length is refused.
    pub fn read(bytes: &[u8]) -> Result<Request, Refusal>
        ensures { result ≡ request_read bytes.now }
    {
        bytes
            .as_array()
            .map(Request::from)
            .ok_or(Refusal::RequestLength(bytes.len()))
    }

    /// For how long a login or an update asks its login to be held after a reset, in ticks.
    pub fn hold(&self) -> u8
        ensures value { result ≡ hold_asked self.now.reconnect self.now.response_length }
        ensures law { HoldLaw self.now.reconnect self.now.response_length result }
    {
        if self.response_length < 16 {
            0
        } else if self.reconnect >= 8 {
            255
        } else {
            (1 << self.reconnect) - 1
        }
    }
}

// N bytes of a request from a place on.
fn bytes_at<const N: usize>(orb: &[u8; 32], at: usize) -> [u8; N]
    requires { at + N ≤ 32 }
    ensures { (i : ℕ) → i < N → slice_index result i ≡ slice_index orb.now (at + i) }
{
    let mut bytes = [0; N];
    bytes.copy_from_slice(&orb[at..at + N]);
    bytes
}

fn flag(word: u32, k: u32) -> bool
    requires { k < 32 }
    ensures { result ≡ bit word k }
{
    (word >> k) & 1 == 1
}
