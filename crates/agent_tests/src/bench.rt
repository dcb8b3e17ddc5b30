// A bench with a target and some stations: A, B and C, all admitted to every unit.
use access::pairs::{PairNote, PairTable};
use agent::steps::status;
use agent::target::Target;
use bus::local::LocalBus;
use bus::portal::Portal;
use logins::rows::Holders;
use reader::ids::{Eui64, NodeId};
use reader::refusal::Refusal;
use reader::request::{Function, Request};
use responses::writing::SMALLEST_AREA;

// Where the stations stand at first, and who they are.
pub const A: u16 = 0xFFC0;

pub const B: u16 = 0xFFC1;

pub const C: u16 = 0xFFC3;

pub const A_EUI: u64 = 10;

pub const B_EUI: u64 = 11;

pub const C_EUI: u64 = 12;

pub const NOBODY: u64 = u64::MAX;

#[derive(Drop)]
pub struct Bench {
    pub target: Target<Portal<LocalBus>, PairTable>,
    pub response: [u8; SMALLEST_AREA],
}

fn request(function: Function, number: u16) -> Request {
    Request {
        eui_64: Eui64(0),
        notify: true,
        rq_fmt: 0,
        exclusive_or_allocate: false,
        aware: false,
        update: false,
        reconnect: 2,
        function,
        unit_or_login_id: number,
        node_or_handle: 0,
        response_length: 16,
        status_fifo: 0,
    }
}

// A login with hold 3.
pub fn login(unit: u16) -> Request {
    request(Function::Login, unit)
}

pub fn exclusive(unit: u16) -> Request {
    Request {
        exclusive_or_allocate: true,
        ..login(unit)
    }
}

pub fn aware(unit: u16) -> Request {
    Request {
        aware: true,
        ..login(unit)
    }
}

pub fn update(login: u16, reconnect: u8) -> Request {
    Request {
        update: true,
        reconnect,
        ..request(Function::Login, login)
    }
}

pub fn reconnect(login: u16) -> Request {
    request(Function::Reconnect, login)
}

pub fn logout(login: u16) -> Request {
    request(Function::Logout, login)
}

pub fn query(unit: u16, length: u16) -> Request {
    Request {
        response_length: length,
        ..request(Function::QueryLogins, unit)
    }
}

pub fn allocate(login: u16, eui: u64, node: u16) -> Request {
    Request {
        exclusive_or_allocate: true,
        eui_64: Eui64(eui),
        node_or_handle: node,
        ..request(Function::NodeHandle, login)
    }
}

pub fn release(login: u16, handle: u16) -> Request {
    Request {
        node_or_handle: handle,
        ..request(Function::NodeHandle, login)
    }
}

impl Bench {
    pub fn new() -> Bench {
        let mut bench = Bench {
            target: Target::new(Portal::new(LocalBus::new(Eui64(1))), PairTable::new()),
            response: [0; SMALLEST_AREA],
        };
        bench.seat(0xFFC2, 1);
        bench.seat(A, A_EUI);
        bench.seat(B, B_EUI);
        bench.seat(C, C_EUI);
        for unit in 0..4 {
            for eui in 10..15 {
                bench.admit(eui, unit, true);
            }
        }
        bench.target.access_change();
        bench.target.bus_reset();
        bench
    }

    // Notes who is at a node from the next topology on.
    pub fn seat(&mut self, node: u16, eui: u64) {
        let _ = self.target.bus_note(NodeId(node), Some(Eui64(eui)));
    }

    pub fn admit(&mut self, eui: u64, unit: u16, admitted: bool) {
        let eui_64 = Eui64(eui);
        let _ = self.target.access_note(PairNote {
            eui_64,
            unit,
            admitted,
        });
    }

    // A gap and so many ticks.
    pub fn wait(&mut self, ticks: u16) {
        self.target.gap();
        for _ in 0..ticks {
            self.target.tick();
        }
    }

    // Serves a request, and gives its status.
    pub fn ask(&mut self, source: u16, asked: Request) -> u8 {
        status(self.serve(source, asked))
    }

    pub fn serve(&mut self, source: u16, asked: Request) -> Result<usize, Refusal> {
        self.target
            .serve(NodeId(source), &asked, &mut self.response)
    }

    // The login ID that the last login was told.
    pub fn login_id(&self) -> u16 {
        u16::from_be_bytes([self.response[2], self.response[3]])
    }

    pub fn holders(&self) -> u16 {
        self.target.tables().count_holders(Holders::All)
    }

    pub fn handles(&self) -> u16 {
        self.target.tables().count_handles()
    }
}
