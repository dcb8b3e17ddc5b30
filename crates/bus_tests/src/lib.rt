// What happens on a local bus, a harness and portals, as one who uses them sees it.
#![tactic(auto)]

#[cfg(test)]
mod tests {
    use bus::Bus;
    use bus::harness::Harness;
    use bus::local::LocalBus;
    use bus::portal::Portal;
    use reader::ids::{Eui64, NodeId};
    use reader::refusal::Refusal;
    use std::test::Fail;

    const FIRST: NodeId = NodeId(0xFFC0);

    const SECOND: NodeId = NodeId(0xFFC1);

    const LAST: NodeId = NodeId(0xFFFE);

    const OWN: Eui64 = Eui64(1);

    const A: Eui64 = Eui64(10);

    const B: Eui64 = Eui64(11);

    #[test]
    fn a_node_moves_leaves_and_comes_back(rt: HostRuntime) {
        let mut bus = LocalBus::new(OWN);
        assert!(rt; bus.note(FIRST, Some(A)) == Ok(()));
        assert!(rt; bus.who(FIRST) == None);
        bus.reset();
        assert!(rt; bus.who(FIRST) == Some(A));
        assert!(rt; bus.note(FIRST, None) == Ok(()));
        assert!(rt; bus.note(LAST, Some(A)) == Ok(()));
        assert!(rt; bus.find(A) == Some(FIRST));
        bus.net_update();
        assert!(rt; bus.find(A) == Some(LAST));
        assert!(rt; bus.who(FIRST) == None);
        assert!(rt; bus.note(LAST, Some(Eui64::NONE)) == Ok(()));
        bus.reset();
        assert!(rt; bus.find(A) == None);
        assert!(rt; bus.note(SECOND, Some(A)) == Ok(()));
        bus.reset();
        bus.reset();
        assert!(rt; bus.find(A) == Some(SECOND));
    }

    #[test]
    fn the_own_id_is_none_until_it_is_shown(rt: HostRuntime) {
        let mut bus = LocalBus::new(OWN);
        assert!(rt; bus.note(SECOND, Some(OWN)) == Ok(()));
        assert!(rt; bus.own_id() == NodeId::NONE);
        bus.reset();
        assert!(rt; bus.own_id() == SECOND);
        let nowhere = LocalBus::new(Eui64::NONE);
        assert!(rt; nowhere.own_id() == NodeId::NONE);
    }

    #[test]
    fn an_eui_64_is_noted_at_one_local_id_only(rt: HostRuntime) {
        let mut bus = LocalBus::new(OWN);
        assert!(rt; bus.note(FIRST, Some(A)) == Ok(()));
        assert!(rt; bus.note(SECOND, Some(A)) == Err(Refusal::NotedElsewhere(FIRST)));
        assert!(rt; bus.note(FIRST, Some(A)) == Ok(()));
        bus.reset();
        assert!(rt; bus.find(A) == Some(FIRST));
        assert!(rt; bus.who(SECOND) == None);
        assert!(rt; bus.note(FIRST, Some(B)) == Ok(()));
        assert!(rt; bus.note(SECOND, Some(A)) == Ok(()));
    }

    #[test]
    fn only_local_ids_have_places_on_a_local_bus(rt: HostRuntime) {
        let mut bus = Portal::new(LocalBus::new(OWN));
        assert!(rt; bus.note(LAST, Some(A)) == Ok(()));
        assert!(rt; bus.note(NodeId::NONE, Some(B)) == Err(Refusal::OutOfRange(0xFFFF)));
        assert!(rt; bus.note(NodeId(0xFFBF), Some(B)) == Err(Refusal::OutOfRange(0xFFBF)));
        bus.net_update();
        assert!(rt; bus.who(LAST) == Some(A));
        assert!(rt; bus.who(NodeId::NONE) == None);
        assert!(rt; bus.who(NodeId(0xFFBF)) == None);
    }

    #[test]
    fn a_global_id_comes_and_goes_with_a_net_update(rt: HostRuntime) {
        let mut bus = Portal::new(LocalBus::new(OWN));
        assert!(rt; bus.note(NodeId(0), Some(A)) == Ok(()));
        bus.reset();
        assert!(rt; bus.who(NodeId(0)) == None);
        bus.net_update();
        assert!(rt; bus.who(NodeId(0)) == Some(A));
        assert!(rt; bus.note(NodeId(0), None) == Ok(()));
        assert!(rt; bus.note(NodeId(1), None) == Ok(()));
        assert!(rt; bus.who(NodeId(0)) == Some(A));
        bus.net_update();
        assert!(rt; bus.who(NodeId(0)) == None);
    }

    #[test]
    fn a_portal_has_32_places(rt: HostRuntime) {
        let mut bus = Portal::new(LocalBus::new(OWN));
        for k in 0..32 {
            assert!(rt; bus.note(NodeId(k), Some(A)) == Ok(()));
        }
        assert!(rt; bus.note(NodeId(32), Some(A)) == Err(Refusal::TableFull(32)));
        assert!(rt; bus.note(NodeId(32), None) == Ok(()));
        assert!(rt; bus.note(NodeId(31), Some(B)) == Ok(()));
        bus.net_update();
        assert!(rt; bus.who(NodeId(30)) == Some(A));
        assert!(rt; bus.who(NodeId(31)) == Some(B));
        assert!(rt; bus.who(NodeId(32)) == None);
        assert!(rt; bus.note(NodeId(7), None) == Ok(()));
        assert!(rt; bus.note(NodeId(32), Some(A)) == Ok(()));
    }

    #[test]
    fn the_upper_of_two_portals_wins(rt: HostRuntime) {
        let mut lower = Portal::new(LocalBus::new(OWN));
        assert!(rt; lower.note(NodeId(0), Some(A)) == Ok(()));
        assert!(rt; lower.note(NodeId(1), Some(A)) == Ok(()));
        let mut upper = Portal::new(lower);
        assert!(rt; upper.note(NodeId(1), Some(B)) == Ok(()));
        assert!(rt; upper.note(FIRST, Some(OWN)) == Ok(()));
        upper.net_update();
        assert!(rt; upper.who(NodeId(0)) == Some(A));
        assert!(rt; upper.who(NodeId(1)) == Some(B));
        assert!(rt; upper.own_id() == FIRST);
        assert!(rt; upper.note(NodeId(1), None) == Ok(()));
        upper.net_update();
        assert!(rt; upper.who(NodeId(1)) == Some(A));
    }

    fn refusal(base: u64, count: u16) -> Option<Refusal> {
        Harness::new(base, count).err()
    }

    #[test]
    fn a_harness_has_its_ranges(rt: HostRuntime) {
        let highest = u64::MAX - 64;
        assert!(rt; refusal(highest, 0) == Some(Refusal::OutOfRange(0)));
        assert!(rt; refusal(highest, 1) == None);
        assert!(rt; refusal(highest, 63) == None);
        assert!(rt; refusal(highest, 64) == Some(Refusal::OutOfRange(64)));
        assert!(rt; refusal(highest + 1, 63) == Some(Refusal::OutOfRange(highest + 1)));
        assert!(rt; refusal(highest + 1, 64) == Some(Refusal::OutOfRange(64)));
    }

    #[test]
    fn a_harness_stays_as_it_is(rt: HostRuntime) -> Result<(), Fail> {
        let Ok(mut bus) = Harness::new(u64::MAX - 64, 63) else {
            return Err(Fail::new("no harness"));
        };
        assert!(rt; bus.note(SECOND, Some(A)) == Err(Refusal::OutOfRange(0xFFC1)));
        bus.reset();
        bus.net_update();
        assert!(rt; bus.own_id() == FIRST);
        assert!(rt; bus.who(LAST) == Some(Eui64(u64::MAX - 2)));
        assert!(rt; bus.find(Eui64(u64::MAX - 2)) == Some(LAST));
        assert!(rt; bus.find(Eui64(u64::MAX - 1)) == None);
        Ok(())
    }
}
