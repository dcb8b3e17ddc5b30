// Logins through resets, late returns, updates and access changes.
use crate::bench::*;
use reader::request::Request;

#[test]
fn third_station_inside_the_hold_is_turned_away(rt: HostRuntime) {
    let mut bench = Bench::new();
    assert_eq!(rt; bench.ask(A, exclusive(1)), 0);
    bench.seat(A, NOBODY);
    bench.target.bus_reset();
    assert_eq!(rt; bench.ask(C, login(1)), 4);
    bench.target.gap();
    for _ in 0..4 {
        bench.target.tick();
        assert_eq!(rt; bench.ask(C, login(1)), 4);
    }
    bench.target.tick();
    assert_eq!(rt; bench.ask(C, login(1)), 0);
}

#[test]
fn second_reset_renews_the_hold_and_needs_a_new_gap(rt: HostRuntime) {
    let mut bench = Bench::new();
    assert_eq!(rt; bench.ask(A, exclusive(1)), 0);
    bench.target.bus_reset();
    bench.wait(4);
    bench.target.bus_reset();
    for _ in 0..9 {
        bench.target.tick();
    }
    assert_eq!(rt; bench.ask(B, login(1)), 4);
    bench.wait(4);
    assert_eq!(rt; bench.ask(B, login(1)), 4);
    bench.target.tick();
    assert_eq!(rt; bench.ask(B, login(1)), 0);
}

#[test]
fn owners_own_login_in_its_hold_is_turned_away_and_harms_nothing(rt: HostRuntime) {
    let mut bench = Bench::new();
    assert_eq!(rt; bench.ask(A, exclusive(1)), 0);
    bench.target.bus_reset();
    assert_eq!(rt; bench.ask(A, login(1)), 4);
    assert_eq!(rt; bench.ask(A, reconnect(1)), 0);
    assert_eq!(rt; bench.holders(), 1);
    assert_eq!(rt; bench.ask(A, logout(1)), 0);
}

#[test]
fn station_at_the_old_node_of_another_can_do_nothing_to_it(rt: HostRuntime) {
    let mut bench = Bench::new();
    assert_eq!(rt; bench.ask(A, aware(1)), 0);
    bench.seat(A, NOBODY);
    bench.seat(0xFFC4, A_EUI);
    bench.seat(A, 13);
    bench.target.bus_reset();
    for asked in [
        logout(1),
        update(1, 2),
        reconnect(1),
        release(1, 0xFFFF),
        allocate(1, B_EUI, B),
    ] {
        assert_eq!(rt; bench.ask(A, asked), 10);
    }
    assert_eq!(rt; bench.ask(0xFFC4, allocate(1, B_EUI, B)), 0);
    assert_eq!(rt; bench.ask(0xFFC4, logout(1)), 0);
}

#[test]
fn one_owner_with_two_units_has_two_holds(rt: HostRuntime) {
    let mut bench = Bench::new();
    let short = Request {
        reconnect: 1,
        ..login(2)
    };
    assert_eq!(rt; bench.ask(A, login(1)), 0);
    assert_eq!(rt; bench.ask(A, short), 0);
    bench.target.bus_reset();
    bench.wait(2);
    assert_eq!(rt; bench.holders(), 2);
    bench.target.tick();
    assert_eq!(rt; bench.holders(), 1);
    bench.wait(1);
    assert_eq!(rt; bench.ask(A, reconnect(1)), 0);
    assert_eq!(rt; bench.ask(A, reconnect(2)), 10);
}

#[test]
fn update_changes_the_next_hold(rt: HostRuntime) {
    let mut bench = Bench::new();
    assert_eq!(rt; bench.ask(A, login(1)), 0);
    assert_eq!(rt; bench.ask(A, update(1, 1)), 0);
    bench.target.bus_reset();
    bench.wait(2);
    assert_eq!(rt; bench.holders(), 1);
    bench.target.tick();
    assert_eq!(rt; bench.holders(), 0);
}

#[test]
fn access_change_ends_active_and_reserved_holders_and_frees_their_handles(rt: HostRuntime) {
    let mut bench = Bench::new();
    assert_eq!(rt; bench.ask(A, aware(1)), 0);
    assert_eq!(rt; bench.ask(A, allocate(1, B_EUI, B)), 0);
    assert_eq!(rt; bench.ask(B, login(2)), 0);
    assert_eq!(rt; bench.ask(C, login(3)), 0);
    bench.target.bus_reset();
    assert_eq!(rt; bench.handles(), 2);
    bench.admit(A_EUI, 1, false);
    bench.admit(B_EUI, 2, false);
    assert_eq!(rt; bench.holders(), 3);
    bench.target.access_change();
    assert_eq!(rt; bench.holders(), 1);
    assert_eq!(rt; bench.handles(), 0);
    assert_eq!(rt; bench.ask(C, reconnect(3)), 0);
}

#[test]
fn aware_owner_behind_a_bridge_outlives_a_reset_and_not_a_net_update(rt: HostRuntime) {
    let mut bench = Bench::new();
    bench.seat(0x0041, A_EUI);
    bench.target.net_update();
    assert_eq!(rt; bench.ask(0x0041, login(1)), 9);
    assert_eq!(rt; bench.ask(0x0041, aware(1)), 0);
    bench.target.bus_reset();
    assert_eq!(rt; bench.ask(0x0041, update(1, 2)), 9);
    bench.target.net_update();
    assert_eq!(rt; bench.ask(0x0041, logout(1)), 10);
    assert_eq!(rt; bench.ask(0x0041, reconnect(1)), 0);
    assert_eq!(rt; bench.ask(0x0041, logout(1)), 0);
}
