// Whole exchanges: what the link byte and the areas hold afterwards.
use crate::bench::*;
use agent::exchange::{Idle, Signalled};
use agent::steps::status;
use reader::ids::NodeId;
use responses::writing::SMALLEST_AREA;

// A login to a unit with a reconnect field of 2 and a length of 16; notify is not asked for.
fn orb(unit: u8) -> [u8; 32] {
    let mut bytes = [0; 32];
    bytes[17] = 0x20;
    bytes[19] = unit;
    bytes[23] = 16;
    bytes
}

fn signalled(source: u16) -> Signalled {
    Idle::new().signal(NodeId(source), 0x1_2340).unwrap()
}

// Serves what a refused exchange still owes, and lets it go.
fn finish(bench: &mut Bench, exchange: Signalled) {
    let mut link = 0;
    let mut area = [0; 8];
    let (answered, _) = exchange
        .answer(&mut bench.target, &[0; 32], &mut bench.response, &mut link)
        .unwrap();
    let idle = answered.close(&mut area).unwrap();
    let _ = idle.end();
}

// The number that a request in an area of a length draws, and the first byte of its status block.
fn drawn(bench: &mut Bench, source: u16, orb: &[u8], room: usize, link: &mut u8) -> (u8, u8) {
    let mut response = [7; SMALLEST_AREA];
    let room = room.min(SMALLEST_AREA);
    match signalled(source).answer(&mut bench.target, orb, &mut response[0..room], link) {
        Err((refusal, exchange)) => {
            finish(bench, exchange);
            (refusal.number(), 0)
        }
        Ok((answered, served)) => {
            let mut area = [0; 8];
            let idle = answered.close(&mut area).unwrap();
            let _ = idle.end();
            (status(served), area[0])
        }
    }
}

#[test]
fn link_byte_has_its_former_value_on_every_way_out(rt: HostRuntime) {
    for before in [0, 1, 255] {
        let mut bench = Bench::new();
        let mut link = before;
        let mut unknown = orb(1);
        unknown[17] = 0x22;
        assert_eq!(rt; drawn(&mut bench, A, &[0; 31], 196, &mut link), (32, 0));
        assert_eq!(rt; link, before);
        assert_eq!(rt; drawn(&mut bench, A, &orb(1), 195, &mut link), (33, 0));
        assert_eq!(rt; link, before);
        assert_eq!(rt; drawn(&mut bench, A, &unknown, 196, &mut link), (1, 1));
        assert_eq!(rt;
            drawn(&mut bench, 0xFFFF, &orb(1), 196, &mut link),
            (255, 1)
        );
        assert_eq!(rt; drawn(&mut bench, A, &orb(4), 196, &mut link), (5, 1));
        assert_eq!(rt; link, before);
        assert_eq!(rt; drawn(&mut bench, A, &orb(1), 196, &mut link), (0, 0));
        assert_eq!(rt; drawn(&mut bench, A, &orb(1), 196, &mut link), (4, 1));
        assert_eq!(rt; link, before);
    }
}

#[test]
fn orb_address_is_tested_at_the_signal(rt: HostRuntime) {
    for (address, fits) in [
        (0, true),
        (0xFFFF_FFFF_FFFC, true),
        (0xFFFF_FFFF_FFFD, false),
        (0x1_0000_0000_0000, false),
        (2, false),
    ] {
        let mut bench = Bench::new();
        match Idle::new().signal(NodeId(A), address) {
            Ok(exchange) => {
                finish(&mut bench, exchange);
                assert!(rt; fits);
            }
            Err((refusal, idle)) => {
                let _ = idle.end();
                assert!(rt; !fits && refusal.number() == 35 && refusal.value() == address);
            }
        }
    }
}
