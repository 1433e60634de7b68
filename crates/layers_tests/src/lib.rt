// Tests of a pile of layers over the minimal pmap.

#![tactic(auto)]

#[cfg(test)]
mod tests {
    use layers::offset::Offset;
    use layers::replica::Replica;
    use minimal::entry::{Change, Entry, change_slot, is_at, is_room};
    use minimal::slots::{change_slots, find_entry};
    use minimal::table::Minimal;
    use noted::Noted;
    use pmap::access::Access;
    use pmap::interface::Pmap;
    use refusal::pmap::PmapRefusal;
    use std::process::Abort;
    use std::test::Fail;

    // What any pmap does, from clear on.
    fn exercise<P: Pmap>(rt: &impl Abort, pmap: &mut P) {
        pmap.clear();
        assert_eq!(rt; pmap.enter(1, 0, 7, 3, true), Ok(()));
        assert_eq!(rt; pmap.access(1, 0, true), Ok(Access::Hit(7)));
        assert_eq!(rt; pmap.modified(7), Ok(true));
        assert_eq!(rt; pmap.find(1, 0), Ok(Some((7, 3, true))));
        assert_eq!(rt; pmap.find(1, 262_144), Err(PmapRefusal::Range));
    }

    #[test]
    fn an_offset_out_of_range_is_refused(rt: HostRuntime) -> Result<(), Fail> {
        let Err(refused) = Offset::new(Minimal::new(), 262_144) else {
            return Err(Fail::new("a whole turn was taken"));
        };
        assert_eq!(rt; refused.refusal, PmapRefusal::Range);
        Ok(())
    }

    #[test]
    fn a_pile_is_a_pmap(rt: HostRuntime) -> Result<(), Fail> {
        let Ok(second) = Offset::new(Minimal::new(), 5) else {
            return Err(Fail::new("5 was refused"));
        };
        let Ok(mut pile) = Offset::new(Replica::new(Minimal::new(), second), 262_143) else {
            return Err(Fail::new("262143 was refused"));
        };
        exercise(&rt, &mut pile);
        Ok(())
    }

    // Modified is what a write hit, until clear-modified.
    fn modify<P: Pmap>(rt: &impl Abort, pmap: &mut P) {
        pmap.clear();
        assert_eq!(rt; pmap.enter(2, 9, 8, 3, false), Ok(()));
        assert_eq!(rt; pmap.access(2, 9, false), Ok(Access::Hit(8)));
        assert_eq!(rt; pmap.modified(8), Ok(false));
        assert_eq!(rt; pmap.access(2, 9, true), Ok(Access::Hit(8)));
        assert_eq!(rt; pmap.modified(8), Ok(true));
        assert_eq!(rt; pmap.modified(4), Ok(false));
        assert_eq!(rt; pmap.clear_modified(8), Ok(()));
        assert_eq!(rt; pmap.modified(8), Ok(false));
        assert_eq!(rt; pmap.modified(256), Err(PmapRefusal::Range));
    }

    #[test]
    fn a_pile_with_flags_is_a_pmap(rt: HostRuntime) {
        let mut pile = Noted::new(Replica::new(Minimal::new(), Noted::new(Minimal::new())));
        exercise(&rt, &mut pile);
        modify(&rt, &mut pile);
    }

    // The functions over slots take entries of any numbers, also those that no pmap would hold.
    #[test]
    fn slots_hold_any_numbers(rt: HostRuntime) {
        let entry = Entry {
            space: 200,
            page: 4_000_000,
            frame: 60_000,
            protection: 3,
            wired: false,
        };
        assert!(rt; is_at(Some(entry), 200, 4_000_000));
        assert!(rt; !is_room(Some(entry), 200, 4_000_001));
        assert!(rt; change_slot(Some(entry), Change::Drop(60_000)).is_none());
        let mut slots = [None, Some(entry)];
        change_slots(&mut slots, Change::Lower(200, 4_000_000));
        let low = find_entry(&slots, 200, 4_000_000).map(|found| (found.frame, found.protection));
        assert_eq!(rt; low, Some((60_000, 1)));
    }
}
