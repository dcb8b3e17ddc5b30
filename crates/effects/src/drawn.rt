// What a record drew, in words.
ghost use Rattle.std.specs.Prelude.{◌≡◌, ◌≤◌, IfOk, Some, string_bytes, slice_index};
ghost use Rattle.reader.specs.Quadlets.{big2};
ghost use Rattle.journal.specs.Entries.{entry};
ghost use Rattle.effects.specs.Drawn.{own_text, login_granted_text, query_granted_text, handle_granted_text, function_granted_text, granted_text, drawn_text};

use journal::record::Record;
use reader::refusal::Refusal;
use reader::request::{Function, Request};
use std::alloc::{AllocError, Global};
use std::fmt;

// The login's own node handle, if it was given one.
#[derive(Clone, Copy)]
struct OwnHandle(u16);

// A byte of a response; where it stores fewer, 0.
fn byte(response: &[u8], at: usize) -> u8
    ensures { result ≡ slice_index response.now at }
{
    response.get(at).copied().unwrap_or(0)
}

fn half(response: &[u8], at: usize) -> u16
    requires { at ≤ 14 }
    ensures { result ≡ big2 response.now at }
{
    u16::from_be_bytes([byte(response, at), byte(response, at + 1)])
}

impl fmt::Display for OwnHandle {
    ghost output = { λ h. Some (own_text h.0) };

    fn fmt<W: fmt::Write>(&self, f: &mut fmt::Formatter<W>) -> fmt::Result {
        let handle = self.0;
        if handle == 0 {
            return Ok(());
        }
        write!(f, ", own handle {handle}")
    }
}

fn login_granted(heap: Global, update: bool, response: &[u8]) -> Result<String, AllocError>
    ensures { IfOk result (λ s. string_bytes s ≡ login_granted_text update response.now) }
{
    let verb = if update { "update of login" } else { "login" };
    let hold = half(response, 14);
    let own = OwnHandle(half(response, 12));
    format!(in heap; "granted {verb} {}, hold {hold}{own}", half(response, 2))
}

fn query_granted(heap: Global, response: &[u8]) -> Result<String, AllocError>
    ensures { IfOk result (λ s. string_bytes s ≡ query_granted_text response.now) }
{
    let told = response.len().saturating_sub(4) / 12;
    let holders = if told == 1 { "holder" } else { "holders" };
    format!(in heap; "granted, {told} {holders} told")
}

fn handle_granted(heap: Global, allocate: bool, response: &[u8]) -> Result<String, AllocError>
    ensures { IfOk result (λ s. string_bytes s ≡ handle_granted_text allocate response.now) }
{
    if allocate {
        return format!(in heap; "granted node handle {}", half(response, 0));
    }
    String::from_str(heap, "granted release")
}

fn request_granted(heap: Global, request: Request, response: &[u8]) -> Result<String, AllocError>
    ensures { IfOk result (λ s. string_bytes s ≡ function_granted_text request.function request response.now) }
{
    let login = request.unit_or_login_id;
    match request.function {
        Function::Login => login_granted(heap, request.update, response),
        Function::QueryLogins => query_granted(heap, response),
        Function::Reconnect => format!(in heap; "granted reconnect of login {login}"),
        Function::NodeHandle => handle_granted(heap, request.exclusive_or_allocate, response),
        Function::Logout => format!(in heap; "granted logout of login {login}"),
        Function::Unknown(_) => String::from_str(heap, "granted"),
    }
}

fn granted_words(heap: Global, record: Record<'_>, response: &[u8]) -> Result<String, AllocError>
    ensures { IfOk result (λ s. string_bytes s ≡ granted_text (entry «record».entry) response.now) }
{
    match record {
        Record::Request { orb, .. } => match Request::read(orb) {
            Ok(request) => request_granted(heap, request, response),
            Err(_) => String::from_str(heap, "granted"),
        },
        Record::BusReset | Record::NetUpdate | Record::Gap | Record::Tick | Record::AccessChange =>
            String::from_str(heap, "done"),
        Record::BusNote { .. } | Record::PairNote { .. } | Record::StopNote { .. } =>
            String::from_str(heap, "noted"),
    }
}

// What came of the record is given in parts: a type here would hold the same again as the effect of the crate above.
/// What a record drew: what it was granted, by the response bytes stored, or why it was refused.
pub fn drawn_words(
    heap: Global,
    record: Record<'_>,
    refusal: Option<Refusal>,
    response: &[u8],
) -> Result<String, AllocError>
    ensures { IfOk result (λ s. string_bytes s ≡ drawn_text (entry «record».entry) refusal response.now) }
{
    match refusal {
        None => granted_words(heap, record, response),
        Some(refusal) => format!(in heap; "refused: {refusal}"),
    }
}
