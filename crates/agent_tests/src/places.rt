// Full tables, places that go round, and how much a query tells.
use crate::bench::*;
use reader::refusal::Refusal;

// Four stations at four units are sixteen holders.
fn full() -> Bench {
    let mut bench = Bench::new();
    bench.seat(0xFFC4, 13);
    bench.seat(0xFFC5, 14);
    bench.target.bus_reset();
    for unit in 0..4 {
        for station in [A, B, C, 0xFFC4] {
            let _ = bench.ask(station, login(unit));
        }
    }
    bench
}

#[test]
fn seventeenth_login_finds_no_place(rt: HostRuntime) {
    let mut bench = full();
    assert_eq!(rt; bench.holders(), 16);
    assert!(rt; bench.serve(0xFFC5, login(0)) == Err(Refusal::ResourcesUnavailable(16)));
    bench.target.bus_reset();
    assert_eq!(rt; bench.ask(0xFFC5, login(0)), 8);
    assert_eq!(rt; bench.ask(A, reconnect(1)), 0);
    assert_eq!(rt; bench.ask(A, logout(1)), 0);
    assert_eq!(rt; bench.ask(0xFFC5, login(0)), 0);
}

#[test]
fn thirty_third_handle_finds_no_place(rt: HostRuntime) {
    let mut bench = Bench::new();
    for k in 0..32 {
        bench.seat(0x0100 + k, 100 + u64::from(k));
    }
    bench.target.net_update();
    assert_eq!(rt; bench.ask(A, aware(1)), 0);
    for k in 0..31 {
        assert_eq!(rt;
            bench.ask(A, allocate(1, 100 + u64::from(k), 0x0100 + k)),
            0
        );
    }
    assert_eq!(rt; bench.handles(), 32);
    let last = allocate(1, 131, 0x011F);
    assert!(rt; bench.serve(A, last) == Err(Refusal::ResourcesUnavailable(32)));
    assert_eq!(rt; bench.ask(A, allocate(1, 100, 0x0100)), 0);
    assert_eq!(rt; bench.ask(B, aware(2)), 8);
    assert_eq!(rt; bench.ask(A, release(1, 1)), 9);
    assert_eq!(rt; bench.ask(A, release(1, 33)), 14);
    assert_eq!(rt; bench.ask(A, release(1, 2)), 0);
    assert_eq!(rt; bench.ask(A, last), 0);
}

#[test]
fn places_go_round(rt: HostRuntime) {
    let mut bench = Bench::new();
    for id in 1..17 {
        assert_eq!(rt; bench.ask(A, login(1)), 0);
        assert_eq!(rt; bench.login_id(), id);
        assert_eq!(rt; bench.ask(A, logout(id)), 0);
    }
    assert_eq!(rt; bench.ask(A, login(1)), 0);
    assert_eq!(rt; bench.login_id(), 1);
}

#[test]
fn query_tells_as_many_holders_as_fit(rt: HostRuntime) {
    let mut bench = full();
    assert_eq!(rt; bench.ask(A, query(1, 3)), 9);
    for (length, stored) in [
        (4, 4),
        (15, 4),
        (16, 16),
        (27, 16),
        (28, 28),
        (196, 52),
        (0xFFFF, 52),
    ] {
        assert!(rt; bench.serve(A, query(1, length)) == Ok(stored));
    }
    assert_eq!(rt; bench.ask(A, query(4, 196)), 5);
}

#[test]
fn query_tells_owner_login_and_ticks(rt: HostRuntime) {
    let mut bench = Bench::new();
    assert_eq!(rt; bench.ask(A, login(1)), 0);
    assert!(rt; bench.serve(A, query(1, 16)) == Ok(16));
    let [_, stored, _, each, high, low, _, id, ..] = bench.response;
    assert!(rt; stored == 16 && each == 16 && high == 0xFF && low == 0xC0 && id == 1);
    bench.target.bus_reset();
    bench.wait(1);
    assert!(rt; bench.serve(A, query(1, 16)) == Ok(16));
    let [_, _, _, _, high, low, _, ticks, ..] = bench.response;
    assert!(rt; high == 0xFF && low == 0xFF && ticks == 2);
}
