// The response to a query: the holders of a unit, as many as there is room for.
ghost use Rattle.std.specs.Prelude.{◌≡◌, ◌+◌, ◌-◌, ◌<◌, ◌≤◌, ◌++◌, length, drop, if◌then◌else◌};
ghost use Rattle.logins.specs.Logins.{row_of, reserved};
ghost use Rattle.logins.specs.Rows.{logins_size};
ghost use Rattle.tables.specs.Books.{book_of};
ghost use Rattle.rules.specs.Responses.{query_entry, query_entries, query_response};
ghost use Rattle.responses.specs.Writing.{write_answer, write_area, entries_size};

use crate::writing::SMALLEST_AREA;
use logins::rows::{Holders, Login, LoginState};
use reader::refusal::Refusal;
use tables::tables::{LOGINS, Tables};

// The login ID, or how many ticks are left less 2.
fn id_or_ticks(slot: usize, login: Login) -> u16
    requires { slot < logins_size }
    ensures { result ≡ (if reserved (row_of login) then login.ticks_left - 2 else slot + 1) }
{
    match login.state() {
        LoginState::Reserved => login.ticks_left.saturating_sub(2),
        LoginState::Free | LoginState::Active => slot as u16 + 1,
    }
}

fn entry(slot: usize, login: Login) -> [u8; 12]
    requires { slot < logins_size }
    ensures { result ≡ query_entry slot (row_of login) }
{
    let [a, b] = login.owner_id.0.to_be_bytes();
    let [c, d] = id_or_ticks(slot, login).to_be_bytes();
    let [e, f, g, h, i, j, k, l] = login.owner_eui_64.0.to_be_bytes();
    [a, b, c, d, e, f, g, h, i, j, k, l]
}

// The entries at the front of an area that has room for all, and how many bytes they take.
fn write_entries(area: &mut [u8], unit: u16, room: u16, tables: &Tables) -> usize
    requires { entries_size ≤ length area.old }
    ensures value { result ≡ length (query_entries unit room 0 (book_of tables.now).logins) }
    ensures within { result ≤ entries_size }
    ensures after { area.new ≡ query_entries unit room 0 (book_of tables.now).logins ++ drop result area.old }
{
    // What is told so far is the result, and no index: an iterator over the entries would have to be counted beside it.
    let mut at = 0;
    let mut left = room;
    for slot in 0..LOGINS {
        let login = tables.login(slot);
        if login.is_among(Holders::OfUnit(unit)) {
            if left < 12 {
                return at;
            }
            area[at..at + 12].copy_from_slice(&entry(slot, login));
            at += 12;
            left -= 12;
        }
    }
    at
}

/// The holders of a unit in slot order, as many as the initiator has room for.
pub fn write_query(area: &mut [u8], unit: u16, room: u16, tables: &Tables) -> Result<usize, Refusal>
    ensures value { result ≡ write_answer area.old (query_response unit room (book_of tables.now).logins) }
    ensures after { area.new ≡ write_area area.old (query_response unit room (book_of tables.now).logins) }
{
    if area.len() < SMALLEST_AREA {
        return Err(Refusal::ResponseArea(area.len()));
    }
    let told = write_entries(&mut area[4..], unit, room.saturating_sub(4), tables);
    let [high, low] = (4 + told as u16).to_be_bytes();
    area[0..4].copy_from_slice(&[high, low, 0, 16]);
    Ok(4 + told)
}
