// The line of a trace: all that a record did, for programs.
ghost use Rattle.std.specs.Prelude.{◌≡◌, ◌<◌, true, IfOk, Some, string_bytes};
ghost use Rattle.tables.specs.Books.{book_of};
ghost use Rattle.logins.specs.Logins.{row_of};
ghost use Rattle.logins.specs.Rows.{handles_size};
ghost use Rattle.effects.specs.Trace.{layer_text, drew_text, hex_bytes, stored_text, owner_text, terms_text, holder_text, node_handle_text, holders_text, handles_text, book_text, trace_text};

use crate::lists::joined;
use logins::rows::{Handle, Login};
use reader::ids::Eui64;
use reader::refusal::{Layer, Refusal};
use std::alloc::{AllocError, Global};
use std::fmt;
use tables::tables::{HANDLES, LOGINS, Tables};

// Who holds a login, and from where.
#[derive(Clone, Copy)]
struct Owner(Login);

// How a login is held.
#[derive(Clone, Copy)]
struct Terms(Login);

fn layer_word(layer: Layer) -> &'static str
    ensures { result.now ≡ layer_text layer }
{
    match layer {
        Layer::Areas => "areas",
        Layer::Request => "request",
        Layer::Bus => "bus",
        Layer::Access => "access",
        Layer::Tables => "tables",
        Layer::Notes | Layer::Journal => "-",
    }
}

// Number, layer and value.
fn drew_words(heap: Global, refusal: Option<Refusal>) -> Result<String, AllocError>
    ensures { IfOk result (λ s. string_bytes s ≡ drew_text refusal) }
{
    match refusal {
        None => String::from_str(heap, "0 - -"),
        Some(refusal) => format!(in heap;
            "{} {} {}",
            refusal.number(),
            layer_word(refusal.layer()),
            refusal.value()
        ),
    }
}

fn hex_words(heap: Global, bytes: &[u8]) -> Result<String, AllocError>
    ensures { IfOk result (λ s. string_bytes s ≡ hex_bytes bytes.now) }
{
    let mut text = String::new(heap);
    for byte in bytes {
        write!(text, "{byte:02X}")?;
    }
    Ok(text)
}

fn stored_words(heap: Global, bytes: &[u8]) -> Result<String, AllocError>
    ensures { IfOk result (λ s. string_bytes s ≡ stored_text bytes.now) }
{
    if bytes.is_empty() {
        return String::from_str(heap, "-");
    }
    hex_words(heap, bytes)
}

impl fmt::Display for Owner {
    ghost output = { λ o. Some (owner_text (row_of o.0)) };

    #[tactic(auto, unfolding(crate::specs::Trace::owner_text))]
    fn fmt<W: fmt::Write>(&self, f: &mut fmt::Formatter<W>) -> fmt::Result {
        write!(
            f,
            "{}:{}:{}:{}",
            self.0.unit,
            self.0.owner_id,
            self.0.owner_eui_64,
            Eui64(self.0.status_fifo)
        )
    }
}

impl fmt::Display for Terms {
    ghost output = { λ t. Some (terms_text (row_of t.0)) };

    #[tactic(auto, using(crate::proofs::Marks::mark_told), unfolding(crate::specs::Trace::terms_text))]
    fn fmt<W: fmt::Write>(&self, f: &mut fmt::Formatter<W>) -> fmt::Result {
        write!(
            f,
            "{}:{}:{}:{}",
            u8::from(self.0.exclusive),
            u8::from(self.0.aware),
            self.0.hold,
            self.0.ticks_left
        )
    }
}

// Told as the first of its list, which `true` means: the comma before each of the others comes from the list.
fn holder_words(heap: Global, slot: usize, login: Login) -> Result<String, AllocError>
    ensures { IfOk result (λ s. string_bytes s ≡ holder_text true slot (row_of login)) }
{
    format!(in heap; "{slot}:{}:{}", Owner(login), Terms(login))
}

// Told as the first of its list too; the place comes from a loop over the table.
#[tactic(auto, using(crate::proofs::Marks::mark_told))]
fn handle_words(heap: Global, place: usize, handle: Handle) -> Result<String, AllocError>
    requires { place < handles_size }
    ensures { IfOk result (λ s. string_bytes s ≡ node_handle_text true place handle) }
{
    format!(in heap;
        "{}:{}:{}:{}:{}",
        place + 1,
        handle.login,
        handle.eui_64,
        handle.node,
        u8::from(handle.own)
    )
}

fn holders_words(heap: Global, tables: &Tables) -> Result<String, AllocError>
    ensures { IfOk result (λ s. string_bytes s ≡ holders_text (book_of tables.now).logins) }
{
    joined(heap, LOGINS, ",", "-", |slot| {
        let login = tables.login(slot);
        login
            .is_holder()
            .then(|| holder_words(heap, slot, login))
            .transpose()
    })
}

fn handles_words(heap: Global, tables: &Tables) -> Result<String, AllocError>
    ensures { IfOk result (λ s. string_bytes s ≡ handles_text (book_of tables.now).handles) }
{
    joined(heap, HANDLES, ",", "-", |place| {
        let handle = tables.handle(place);
        handle
            .is_in_use()
            .then(|| handle_words(heap, place, handle))
            .transpose()
    })
}

#[tactic(auto, using(crate::proofs::Marks::mark_told))]
fn book_words(heap: Global, tables: &Tables) -> Result<String, AllocError>
    ensures { IfOk result (λ s. string_bytes s ≡ book_text (book_of tables.now)) }
{
    let holders = holders_words(heap, tables)?;
    let handles = handles_words(heap, tables)?;
    format!(in heap;
        "{} {} {} {holders} {handles}",
        u8::from(tables.is_ticking()),
        tables.next_login(),
        tables.next_handle()
    )
}

// What came of the record is given in parts: a type here would hold the same again as the effect of the crate above.
/// All that a record did, and the tables after it.
pub fn trace_line(
    heap: Global,
    count: usize,
    refusal: Option<Refusal>,
    response: &[u8],
    status: &[u8],
    tables: &Tables,
) -> Result<String, AllocError>
    ensures { IfOk result (λ s. string_bytes s ≡ trace_text count refusal response.now status.now (book_of tables.now)) }
{
    let drew = drew_words(heap, refusal)?;
    let response = stored_words(heap, response)?;
    let status = stored_words(heap, status)?;
    let book = book_words(heap, tables)?;
    format!(in heap; "{count} {drew} {response} {status} {book}\n")
}
