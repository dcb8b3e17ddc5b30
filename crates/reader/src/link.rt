// The request reader and the status writer for link firmware in C, on numbers and byte areas.
// The crate reader_c exports them under the same names: C needs a static library, and no crate is built both as a static
// library and as a library of Rust.
ghost use Rattle.std.specs.Prelude.{◌≡◌};
ghost use Rattle.reader.specs.Links.{link_fields, link_number, link_filled, block_number};
ghost use Rattle.reader.specs.Blocks.{block_put};

use crate::request::Request;
use crate::status::write_status;

/// The fields of a request as C sees them; include/login_agent.h has the same struct.
#[repr(C)]
#[derive(Clone, Copy)]
pub struct LinkRequest {
    pub eui_64: u64,
    pub status_fifo: u64,
    pub unit_or_login_id: u16,
    pub node_or_handle: u16,
    pub response_length: u16,
    pub rq_fmt: u8,
    pub reconnect: u8,
    pub function: u8,
    pub hold: u8,
    pub notify: bool,
    pub exclusive_or_allocate: bool,
    pub aware: bool,
    pub update: bool,
}

impl From<Request> for LinkRequest {
    ghost from_gives = { λ q l. l ≡ link_fields q };

    fn from(request: Request) -> LinkRequest {
        LinkRequest {
            eui_64: request.eui_64.0,
            status_fifo: request.status_fifo,
            unit_or_login_id: request.unit_or_login_id,
            node_or_handle: request.node_or_handle,
            response_length: request.response_length,
            rq_fmt: request.rq_fmt,
            reconnect: request.reconnect,
            function: u8::from(request.function),
            hold: request.hold(),
            notify: request.notify,
            exclusive_or_allocate: request.exclusive_or_allocate,
            aware: request.aware,
            update: request.update,
        }
    }
}

/// 0 and the fields of the request, or 32 and `out` as it was.
pub fn sbp_read_request(bytes: &[u8], out: &mut LinkRequest) -> u32
    ensures value { result ≡ link_number bytes.now }
    ensures after { out.new ≡ link_filled bytes.now out.old }
{
    match Request::read(bytes) {
        Ok(request) => {
            *out = LinkRequest::from(request);
            0
        }
        Err(refusal) => u32::from(refusal.number()),
    }
}

/// 0 and the block at the front of the area, or 34 and the area as it was.
pub fn sbp_write_status(area: &mut [u8], status: u8, orb_address: u64) -> u32
    ensures value { result ≡ block_number area.old }
    ensures after { area.new ≡ block_put area.old status orb_address }
{
    match write_status(area, status, orb_address) {
        Ok(()) => 0,
        Err(refusal) => u32::from(refusal.number()),
    }
}
