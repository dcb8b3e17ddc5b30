// The holders and the node handles in words.
ghost use Rattle.std.specs.Prelude.{◌≡◌, ◌<◌, true, IfOk, Some, string_bytes};
ghost use Rattle.tables.specs.Books.{book_of};
ghost use Rattle.logins.specs.Logins.{row_of};
ghost use Rattle.logins.specs.Rows.{logins_size, handles_size};
ghost use Rattle.effects.specs.Holders.{state_text, claim_text, holder_line, handle_line, holder_lines, handle_lines, tables_text};

use crate::lists::joined;
use logins::rows::{Handle, Login, LoginState};
use std::alloc::{AllocError, Global};
use std::fmt;
use tables::tables::{HANDLES, LOGINS, Tables};

// Where the owner of a login is, or for how long it is kept.
#[derive(Clone, Copy)]
struct Held(Login);

// How a login is held.
#[derive(Clone, Copy)]
struct Claim(Login);

impl fmt::Display for Held {
    ghost output = { λ h. Some (state_text (row_of h.0)) };

    #[tactic(auto, unfolding(crate::specs::Holders::state_text))]
    fn fmt<W: fmt::Write>(&self, f: &mut fmt::Formatter<W>) -> fmt::Result {
        if self.0.state() == LoginState::Reserved {
            let ticks = self.0.ticks_left;
            let unit = if ticks == 1 { "tick" } else { "ticks" };
            return write!(f, "reserved with {ticks} {unit} left");
        }
        write!(f, "active at {}", self.0.owner_id)
    }
}

impl fmt::Display for Claim {
    ghost output = { λ c. Some (claim_text (row_of c.0)) };

    #[tactic(auto, unfolding(crate::specs::Holders::claim_text))]
    fn fmt<W: fmt::Write>(&self, f: &mut fmt::Formatter<W>) -> fmt::Result {
        let exclusive = if self.0.exclusive { ", exclusive" } else { "" };
        let aware = if self.0.aware { ", aware" } else { "" };
        write!(f, "{exclusive}{aware}, hold {}", self.0.hold)
    }
}

// Told as the first of its list, which `true` means, and the others are told alike; the slot comes from a loop over the
// table.
fn holder_row(heap: Global, slot: usize, login: Login) -> Result<String, AllocError>
    requires { slot < logins_size }
    ensures { IfOk result (λ s. string_bytes s ≡ holder_line true slot (row_of login)) }
{
    format!(in heap;
        "    login {}: unit {}, {}, owner {}{}\n",
        slot + 1,
        login.unit,
        Held(login),
        login.owner_eui_64,
        Claim(login)
    )
}

// The place comes from a loop over the table.
fn handle_row(heap: Global, place: usize, handle: Handle) -> Result<String, AllocError>
    requires { place < handles_size }
    ensures { IfOk result (λ s. string_bytes s ≡ handle_line place handle) }
{
    let own = if handle.own { ", own" } else { "" };
    format!(in heap;
        "    node handle {} of login {}: {} at {}{own}\n",
        place + 1,
        handle.login,
        handle.eui_64,
        handle.node
    )
}

fn holder_rows(heap: Global, tables: &Tables) -> Result<String, AllocError>
    ensures { IfOk result (λ s. string_bytes s ≡ holder_lines (book_of tables.now).logins) }
{
    joined(heap, LOGINS, "", "    no holder\n", |slot| {
        let login = tables.login(slot);
        login
            .is_holder()
            .then(|| holder_row(heap, slot, login))
            .transpose()
    })
}

fn handle_rows(heap: Global, tables: &Tables) -> Result<String, AllocError>
    ensures { IfOk result (λ s. string_bytes s ≡ handle_lines 0 (book_of tables.now).handles) }
{
    joined(heap, HANDLES, "", "", |place| {
        let handle = tables.handle(place);
        // No `then` and `transpose` here: that what they give is the handle's line was not proved.
        if handle.is_in_use() {
            Ok(Some(handle_row(heap, place, handle)?))
        } else {
            Ok(None)
        }
    })
}

/// A line for each holder and for each node handle in use.
pub fn tables_words(heap: Global, tables: &Tables) -> Result<String, AllocError>
    ensures { IfOk result (λ s. string_bytes s ≡ tables_text (book_of tables.now)) }
{
    let holders = holder_rows(heap, tables)?;
    let handles = handle_rows(heap, tables)?;
    format!(in heap; "{holders}{handles}")
}
