// Whom pair tables, maker lists and stop lists admit, as one who uses them sees it.
#![tactic(auto)]

#[cfg(test)]
mod tests {
    use access::Access;
    use access::makers::{MakerList, MakerNote};
    use access::pairs::{PairNote, PairTable};
    use access::stops::{StopList, StopNote};
    use reader::ids::Eui64;
    use reader::refusal::Refusal;

    const A: Eui64 = Eui64(10);

    const B: Eui64 = Eui64(11);

    // of the maker 1
    const OF_ONE: Eui64 = Eui64(0x0000_0100_0000_0000);

    const LAST_OF_ONE: Eui64 = Eui64(0x0000_01FF_FFFF_FFFF);

    const FIRST_OF_TWO: Eui64 = Eui64(0x0000_0200_0000_0000);

    // of the maker FFFFFFh
    const LAST: Eui64 = Eui64(0xFFFF_FFFF_FFFF_FFFE);

    fn put(eui_64: Eui64, unit: u16) -> PairNote {
        PairNote {
            eui_64,
            unit,
            admitted: true,
        }
    }

    fn take(eui_64: Eui64, unit: u16) -> PairNote {
        PairNote {
            admitted: false,
            ..put(eui_64, unit)
        }
    }

    fn maker(maker: u32, units: u8) -> MakerNote {
        MakerNote { maker, units }
    }

    fn noted<N>(eui_64: Eui64, stopped: bool) -> StopNote<N> {
        StopNote::Stop { eui_64, stopped }
    }

    fn stop<N>(eui_64: Eui64) -> StopNote<N> {
        noted(eui_64, true)
    }

    fn free<N>(eui_64: Eui64) -> StopNote<N> {
        noted(eui_64, false)
    }

    #[test]
    fn a_pair_comes_and_goes_with_an_access_change(rt: HostRuntime) {
        let mut list = PairTable::new();
        assert!(rt; list.note(put(A, 1)) == Ok(()));
        assert!(rt; !list.admits(A, 1));
        list.change();
        assert!(rt; list.admits(A, 1));
        assert!(rt; !list.admits(A, 0));
        assert!(rt; !list.admits(B, 1));
        list.change();
        assert!(rt; list.admits(A, 1));
        assert!(rt; list.note(take(A, 1)) == Ok(()));
        assert!(rt; list.note(take(B, 1)) == Ok(()));
        assert!(rt; list.admits(A, 1));
        list.change();
        assert!(rt; !list.admits(A, 1));
    }

    #[test]
    fn a_pair_table_has_64_places(rt: HostRuntime) {
        let mut list = PairTable::new();
        for k in 0..64 {
            assert!(rt; list.note(put(Eui64(k), 3)) == Ok(()));
        }
        assert!(rt; list.note(put(Eui64(64), 3)) == Err(Refusal::TableFull(64)));
        assert!(rt; list.note(put(Eui64(63), 2)) == Err(Refusal::TableFull(64)));
        assert!(rt; list.note(put(Eui64(64), 4)) == Err(Refusal::OutOfRange(4)));
        assert!(rt; list.note(put(Eui64(63), 3)) == Ok(()));
        assert!(rt; list.note(take(Eui64(64), 3)) == Ok(()));
        list.change();
        for k in 0..64 {
            assert!(rt; list.admits(Eui64(k), 3));
        }
        assert!(rt; !list.admits(Eui64(64), 3));
        assert!(rt; list.note(take(Eui64(0), 3)) == Ok(()));
        assert!(rt; list.note(put(Eui64(64), 3)) == Ok(()));
    }

    #[test]
    fn a_pair_is_of_somebody_and_a_unit_up_to_3(rt: HostRuntime) {
        let mut list = PairTable::new();
        assert!(rt; list.note(put(LAST, 3)) == Ok(()));
        assert!(rt; list.note(put(LAST, 4)) == Err(Refusal::OutOfRange(4)));
        assert!(rt; list.note(take(LAST, 65535)) == Err(Refusal::OutOfRange(65535)));
        assert!(rt; list.note(put(Eui64::NONE, 3)) == Err(Refusal::OutOfRange(u64::MAX)));
        assert!(rt; list.note(take(Eui64::NONE, 4)) == Err(Refusal::OutOfRange(u64::MAX)));
        list.change();
        assert!(rt; list.admits(LAST, 3));
        assert!(rt; !list.admits(LAST, 4));
        assert!(rt; !list.admits(Eui64::NONE, 3));
    }

    #[test]
    fn a_maker_is_admitted_to_the_units_of_its_mask(rt: HostRuntime) {
        let mut list = MakerList::new();
        assert!(rt; list.note(maker(1, 0b1010)) == Ok(()));
        assert!(rt; !list.admits(OF_ONE, 1));
        list.change();
        assert!(rt; !list.admits(OF_ONE, 0));
        assert!(rt; list.admits(OF_ONE, 1));
        assert!(rt; !list.admits(OF_ONE, 2));
        assert!(rt; list.admits(LAST_OF_ONE, 3));
        assert!(rt; !list.admits(LAST_OF_ONE, 4));
        assert!(rt; !list.admits(LAST_OF_ONE, 65535));
        assert!(rt; !list.admits(FIRST_OF_TWO, 1));
        assert!(rt; list.note(maker(1, 0b0001)) == Ok(()));
        list.change();
        assert!(rt; list.admits(OF_ONE, 0));
        assert!(rt; !list.admits(OF_ONE, 1));
    }

    #[test]
    fn a_maker_list_has_16_places(rt: HostRuntime) {
        let mut list = MakerList::new();
        for k in 1..17 {
            assert!(rt; list.note(maker(k, 15)) == Ok(()));
        }
        assert!(rt; list.note(maker(17, 15)) == Err(Refusal::TableFull(16)));
        assert!(rt; list.note(maker(17, 0)) == Ok(()));
        assert!(rt; list.note(maker(16, 1)) == Ok(()));
        list.change();
        assert!(rt; list.admits(OF_ONE, 3));
        assert!(rt; list.admits(Eui64(16 << 40), 0));
        assert!(rt; !list.admits(Eui64(16 << 40), 1));
        assert!(rt; !list.admits(Eui64(17 << 40), 0));
        assert!(rt; list.note(maker(1, 0)) == Ok(()));
        assert!(rt; list.note(maker(17, 15)) == Ok(()));
        list.change();
        assert!(rt; !list.admits(OF_ONE, 3));
        assert!(rt; list.admits(Eui64(17 << 40), 0));
    }

    #[test]
    fn a_maker_has_24_bits_and_a_mask_4(rt: HostRuntime) {
        let mut list = MakerList::new();
        assert!(rt; list.note(maker(0xFF_FFFF, 15)) == Ok(()));
        assert!(rt; list.note(maker(0xFF_FFFF, 16)) == Err(Refusal::OutOfRange(16)));
        assert!(rt; list.note(maker(0x100_0000, 15)) == Err(Refusal::OutOfRange(0x100_0000)));
        assert!(rt; list.note(maker(0x100_0000, 0)) == Err(Refusal::OutOfRange(0x100_0000)));
        assert!(rt; list.note(maker(u32::MAX, 255)) == Err(Refusal::OutOfRange(0xFFFF_FFFF)));
        list.change();
        assert!(rt; list.admits(LAST, 3));
        assert!(rt; !list.admits(Eui64::NONE, 3));
    }

    #[test]
    fn a_stop_list_takes_one_station_of_a_maker_out(rt: HostRuntime) {
        let mut list = StopList::new(MakerList::new());
        assert!(rt; list.note(StopNote::Below(maker(1, 0b0011))) == Ok(()));
        assert!(rt; list.note(StopNote::Below(maker(1, 16))) == Err(Refusal::OutOfRange(16)));
        assert!(rt; list.note(stop(OF_ONE)) == Ok(()));
        assert!(rt; !list.admits(LAST_OF_ONE, 0));
        list.change();
        assert!(rt; !list.admits(OF_ONE, 0));
        assert!(rt; !list.admits(OF_ONE, 1));
        assert!(rt; list.admits(LAST_OF_ONE, 0));
        assert!(rt; !list.admits(LAST_OF_ONE, 2));
        assert!(rt; list.note(free(OF_ONE)) == Ok(()));
        assert!(rt; !list.admits(OF_ONE, 0));
        list.change();
        assert!(rt; list.admits(OF_ONE, 0));
    }

    #[test]
    fn a_stop_list_has_16_places(rt: HostRuntime) {
        let mut list = StopList::new(PairTable::new());
        assert!(rt; list.note(StopNote::Below(put(Eui64(15), 0))) == Ok(()));
        assert!(rt; list.note(StopNote::Below(put(Eui64(16), 0))) == Ok(()));
        for k in 0..16 {
            assert!(rt; list.note(stop(Eui64(k))) == Ok(()));
        }
        assert!(rt; list.note(stop(Eui64(16))) == Err(Refusal::TableFull(16)));
        assert!(rt; list.note(stop(Eui64(15))) == Ok(()));
        assert!(rt; list.note(free(Eui64(16))) == Ok(()));
        list.change();
        assert!(rt; !list.admits(Eui64(15), 0));
        assert!(rt; list.admits(Eui64(16), 0));
        assert!(rt; list.note(free(Eui64(0))) == Ok(()));
        assert!(rt; list.note(stop(Eui64(16))) == Ok(()));
        list.change();
        assert!(rt; !list.admits(Eui64(16), 0));
    }

    #[test]
    fn nobody_cannot_be_stopped(rt: HostRuntime) {
        let mut list = StopList::new(PairTable::new());
        assert!(rt; list.note(StopNote::Below(put(LAST, 0))) == Ok(()));
        assert!(rt; list.note(stop(Eui64::NONE)) == Err(Refusal::OutOfRange(u64::MAX)));
        assert!(rt; list.note(free(Eui64::NONE)) == Err(Refusal::OutOfRange(u64::MAX)));
        list.change();
        assert!(rt; list.admits(LAST, 0));
    }

    #[test]
    fn stop_lists_stand_on_each_other(rt: HostRuntime) {
        let mut list = StopList::new(StopList::new(PairTable::new()));
        assert!(rt; list.note(StopNote::Below(StopNote::Below(put(A, 0)))) == Ok(()));
        assert!(rt; list.note(StopNote::Below(StopNote::Below(put(B, 0)))) == Ok(()));
        assert!(rt; list.note(StopNote::Below(stop(A))) == Ok(()));
        assert!(rt; list.note(free(A)) == Ok(()));
        list.change();
        assert!(rt; !list.admits(A, 0));
        assert!(rt; list.admits(B, 0));
    }
}
