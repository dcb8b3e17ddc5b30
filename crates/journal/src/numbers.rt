// Numbers in groups of seven bits, lowest first, bit 7 set on all but the last.
ghost use Rattle.std.specs.Prelude.{◌≡◌, ◌+◌, ◌≤◌, length};
ghost use Rattle.journal.specs.Reading.{number_seen, number_at, mark_seen, mark_at};

// A number below 2 ^ bits in its shortest form, and the bytes after it.
pub(crate) fn read_number(bytes: &[u8], bits: u32) -> Option<(u64, &[u8])>
    requires { bits ≤ 64 }
    ensures { number_seen result ≡ number_at bits bytes.now }
{
    let [first, rest @ ..] = bytes else {
        return None;
    };
    let low = *first;
    if low < 128 {
        if bits < 7 && low >= 1 << bits {
            return None;
        }
        return Some((u64::from(low), rest));
    }
    if bits <= 7 {
        return None;
    }
    let (high, after) = read_number(rest, bits - 7)?;
    if high == 0 {
        return None;
    }
    Some((high * 128 + u64::from(low - 128), after))
}

// The same of 16 bits, and of the type that has them.
pub(crate) fn read_half(bytes: &[u8]) -> Option<(u16, &[u8])>
    ensures { number_seen result ≡ number_at 16 bytes.now }
{
    let (number, rest) = read_number(bytes, 16)?;
    Some((number as u16, rest))
}

// A mark: 1 or 0.
pub(crate) fn read_mark(bytes: &[u8]) -> Option<(bool, &[u8])>
    ensures { mark_seen result ≡ mark_at bytes.now }
{
    let (mark, rest) = read_number(bytes, 1)?;
    Some((mark == 1, rest))
}
