// Requests, status blocks and refusals on examples.
use reader::ids::{Eui64, NodeId};
use reader::link::LinkRequest;
use reader::refusal::{Layer, Refusal};
use reader::request::{Function, Request};
use reader::status::write_status;
use reader::text::HexByte;
use std::test::Fail;

const LOGIN: [u8; 32] = [
    0, 0, 0, 0, 0, 0, 0, 10, 9, 9, 9, 9, 9, 9, 9, 9, 0x90, 0x20, 0, 1, 0xFF, 0xC1, 0, 16, 0, 0,
    0xFF, 0xFF, 0xF0, 2, 0, 8,
];

#[test]
fn a_login_is_read_field_by_field(rt: HostRuntime) -> Result<(), Fail> {
    let Ok(request) = Request::read(&LOGIN) else {
        return Err(Fail::new("refused"));
    };
    assert!(rt; request.eui_64 == Eui64(10));
    assert!(rt;
        request.notify && request.exclusive_or_allocate && !request.aware && !request.update
    );
    assert!(rt; request.function == Function::Login && request.rq_fmt == 0);
    assert!(rt; request.reconnect == 2 && request.hold() == 3);
    assert!(rt; request.unit_or_login_id == 1 && request.node_or_handle == 0xFFC1);
    assert!(rt; request.response_length == 16 && request.status_fifo == 0xFFFF_F002_0008);
    assert!(rt; Request::from(&LOGIN) == request);
    Ok(())
}

#[test]
fn a_function_has_a_number(rt: HostRuntime) {
    assert!(rt; Function::from(5) == Function::NodeHandle && u8::from(Function::NodeHandle) == 5);
    assert!(rt; Function::from(6) == Function::Unknown(6) && u8::from(Function::Unknown(6)) == 6);
}

#[test]
fn fields_for_c_are_those_of_the_request(rt: HostRuntime) {
    let fields = LinkRequest::from(Request::from(&LOGIN));
    assert!(rt; fields.eui_64 == 10 && fields.function == 0 && fields.hold == 3 && fields.notify);
}

#[test]
fn a_request_of_another_length_is_refused_with_it(rt: HostRuntime) {
    assert!(rt; Request::read(&LOGIN[0..31]) == Err(Refusal::RequestLength(31)));
    assert!(rt; Request::read(&[]) == Err(Refusal::RequestLength(0)));
}

#[test]
fn a_status_block_goes_to_the_front_of_its_area(rt: HostRuntime) {
    let mut area = [0xAA; 9];
    assert!(rt; write_status(&mut area, 4, 0x12340).is_ok());
    assert!(rt; area == [1, 4, 0, 0, 0, 1, 0x23, 0x40, 0xAA]);
    let mut short = [0xAA; 7];
    let refused = write_status(&mut short, 4, 0x12340);
    assert!(rt; refused == Err(Refusal::StatusArea(7)));
    assert!(rt; short == [0xAA; 7]);
}

#[test]
fn node_ids_are_local_global_broadcast_or_none(rt: HostRuntime) {
    assert!(rt;
        NodeId(0xFFC0).is_local()
            && NodeId(0xFFFE).is_local()
            && !NodeId(0xFFBF).is_local()
            && !NodeId(0xFFFF).is_local()
    );
    assert!(rt; NodeId(0).is_global() && NodeId(0xFFBE).is_global() && !NodeId(0xFFC0).is_global());
    assert!(rt;
        NodeId(63).is_broadcast() && NodeId(0xFFBF).is_broadcast() && !NodeId(0xFFFF).is_broadcast()
    );
    assert!(rt; NodeId::NONE.is_none() && Eui64::NONE.is_none() && !Eui64(0).is_none());
}

#[test]
fn a_refusal_tells_its_number_value_and_layer(rt: HostRuntime) -> Result<(), Fail> {
    let denied = Refusal::AccessDenied(1);
    assert!(rt; denied.number() == 4 && denied.value() == 1 && denied.layer() == Layer::Access);
    let text = denied.to_string(rt.alloc())?;
    assert_eq!(rt;
        text.as_str(),
        "access denied (4): not admitted, or claimed by another; unit 1"
    );
    let nobody = Refusal::Unspecified(NodeId(0xFFC9)).to_string(rt.alloc())?;
    assert_eq!(rt;
        nobody.as_str(),
        "unspecified error (255): nobody is at node FFC9"
    );
    let byte = HexByte(0x0A).to_string(rt.alloc())?;
    assert_eq!(rt; byte.as_str(), "0A");
    let address = Refusal::OrbAddress(0x1_0000_0000_0002).to_string(rt.alloc())?;
    assert_eq!(rt;
        address.as_str(),
        "wrong ORB address (35): above FFFFFFFFFFFC or no multiple of 4; address 0001000000000002"
    );
    Ok(())
}
