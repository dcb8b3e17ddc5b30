// The status block: eight bytes that tell a station how its request ended.
ghost use Rattle.std.specs.Prelude.{◌≡◌};
ghost use Rattle.reader.specs.Blocks.{block_answer, block_put};

use crate::refusal::Refusal;

/// Writes the block at the front of a lent area; the other bytes keep their values.
/// Of the ORB address the low 48 bits are told.
pub fn write_status(area: &mut [u8], status: u8, orb_address: u64) -> Result<(), Refusal>
    ensures value { result ≡ block_answer area.old }
    ensures after { area.new ≡ block_put area.old status orb_address }
{
    let Some(front) = area.first_chunk_mut() else {
        return Err(Refusal::StatusArea(area.len()));
    };
    let [_, _, a, b, c, d, e, f] = orb_address.to_be_bytes();
    *front = [1, status, a, b, c, d, e, f];
    Ok(())
}
