// The C entry points, as a static library: each is the reader's function of that name, under the same contract. The bodies
// stay in reader, since no crate is built both as a static library and as a library of Rust.
#![tactic(auto)]

ghost use Rattle.std.specs.Prelude.{◌≡◌};
ghost use Rattle.reader.specs.Links.{link_number, link_filled, block_number};
ghost use Rattle.reader.specs.Blocks.{block_put};

use reader::link::LinkRequest;

/// 0 and the fields of the request, or 32 and `out` as it was.
#[unsafe(no_mangle)]
pub extern "C" fn sbp_read_request(bytes: &[u8], out: &mut LinkRequest) -> u32
    ensures value { result ≡ link_number bytes.now }
    ensures after { out.new ≡ link_filled bytes.now out.old }
{
    reader::link::sbp_read_request(bytes, out)
}

/// 0 and the block at the front of the area, or 34 and the area as it was.
#[unsafe(no_mangle)]
pub extern "C" fn sbp_write_status(area: &mut [u8], status: u8, orb_address: u64) -> u32
    ensures value { result ≡ block_number area.old }
    ensures after { area.new ≡ block_put area.old status orb_address }
{
    reader::link::sbp_write_status(area, status, orb_address)
}
