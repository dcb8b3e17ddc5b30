// Writing the bytes of a response: all of them, or nothing.
ghost use Rattle.std.specs.Prelude.{◌≡◌, ◌≤◌, length};
ghost use Rattle.rules.specs.Responses.{login_stored, handle_response};
ghost use Rattle.responses.specs.Writing.{smallest_area, write_answer, write_area, login_told, login_bytes};

use crate::told::LoginTold;
use reader::refusal::Refusal;

/// Every response area has this many bytes at least: the longest response is a query that tells 16 holders.
pub const SMALLEST_AREA: usize = 196;

// Bytes that fit the smallest area. The area's size is tested here and not a type: whoever calls from outside has a slice.
fn write(area: &mut [u8], bytes: &[u8]) -> Result<usize, Refusal>
    requires { length bytes.now ≤ smallest_area }
    ensures value { result ≡ write_answer area.old bytes.now }
    ensures after { area.new ≡ write_area area.old bytes.now }
{
    if area.len() < SMALLEST_AREA {
        return Err(Refusal::ResponseArea(area.len()));
    }
    area[0..bytes.len()].copy_from_slice(bytes);
    Ok(bytes.len())
}

/// The node handle that a login was given.
pub fn write_handle(area: &mut [u8], handle: u16) -> Result<usize, Refusal>
    ensures value { result ≡ write_answer area.old (handle_response handle) }
    ensures after { area.new ≡ write_area area.old (handle_response handle) }
{
    let [high, low] = handle.to_be_bytes();
    write(area, &[high, low, 0, 0])
}

fn stored(room: u16) -> u16
    ensures { result ≡ login_stored room }
{
    if room < 16 { 12 } else { 16 }
}

fn login_bytes(told: LoginTold) -> [u8; 16]
    ensures { result ≡ login_bytes told }
{
    let [a, b] = stored(told.room).to_be_bytes();
    let [_, _, c, d] = (u32::from(told.slot) + 1).to_be_bytes();
    let [e, f] = told.own.0.to_be_bytes();
    let offset = 0xFFFF_F001_0000 + 32 * u64::from(told.slot);
    let [_, _, g, h, i, j, k, l] = offset.to_be_bytes();
    let [m, n] = told.handle.to_be_bytes();
    [a, b, c, d, e, f, g, h, i, j, k, l, m, n, 0, told.hold]
}

/// What a login or an update was granted.
pub fn write_login(area: &mut [u8], told: LoginTold) -> Result<usize, Refusal>
    ensures value { result ≡ write_answer area.old (login_told told) }
    ensures after { area.new ≡ write_area area.old (login_told told) }
{
    let bytes = login_bytes(told);
    write(area, &bytes[0..usize::from(stored(told.room))])
}
