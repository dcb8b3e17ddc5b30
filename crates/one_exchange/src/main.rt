// One exchange with a station, from its signal to its status block, and what the areas then hold.
#![tactic(auto)]

use access::pairs::{PairNote, PairTable};
use agent::exchange::Idle;
use agent::target::Target;
use bus::local::LocalBus;
use reader::ids::{Eui64, NodeId};
use responses::writing::SMALLEST_AREA;

const STATION: NodeId = NodeId(0xFFC0);

const ORB_ADDRESS: u64 = 0x1_2340;

// An exclusive login to unit 1 with a reconnect field of 2 and a length of 16; notify is asked for.
fn orb() -> [u8; 32] {
    let mut bytes = [0; 32];
    bytes[16] = 0x90;
    bytes[17] = 0x20;
    bytes[19] = 1;
    bytes[23] = 16;
    bytes
}

// A target at FFC2h, and a station at FFC0h that is admitted to unit 1.
fn target() -> Target<LocalBus, PairTable> {
    let mut target = Target::new(LocalBus::new(Eui64(1)), PairTable::new());
    let _ = target.bus_note(NodeId(0xFFC2), Some(Eui64(1)));
    let _ = target.bus_note(STATION, Some(Eui64(10)));
    let _ = target.access_note(PairNote {
        eui_64: Eui64(10),
        unit: 1,
        admitted: true,
    });
    target.bus_reset();
    target.access_change();
    target
}

fn main(rt: HostRuntime) -> anyhow::Result<()> {
    let mut target = target();
    let mut response = [0; SMALLEST_AREA];
    let mut status = [0; 8];
    let mut link = 0;
    let idle = Idle::new();
    let signalled = idle.signal(STATION, ORB_ADDRESS).unwrap();
    let (answered, served) = signalled
        .answer(&mut target, &orb(), &mut response, &mut link)
        .unwrap();
    let idle = answered.close(&mut status).unwrap();
    let closed = idle.end();
    let stored = served.unwrap_or(0);
    println!(rt; "{closed} exchange closed, {stored} bytes stored, link byte {link}")?;
    println!(rt; "status block {status:?}")?;
    Ok(())
}
