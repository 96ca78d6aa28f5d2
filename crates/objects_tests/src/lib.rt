// Stores at work.
#![tactic(auto)]

#[cfg(test)]
mod tests {
    use chains::{End, Origin};
    use objects::Store;
    use std::test::Fail;

    // Where the walk ends.
    fn end(store: &Store, sharing: u8, index: u16) -> Option<End> {
        store.walk(sharing, index).map(|walk| walk.end)
    }

    // How many objects it visits.
    fn visits(store: &Store, sharing: u8, index: u16) -> Option<u16> {
        store.walk(sharing, index).map(|walk| walk.length)
    }

    // Each generation copies the last, writes one page and closes the last: all objects collapse into one.
    #[test]
    fn generations(rt: HostRuntime) -> Result<(), Fail> {
        let mut store = Store::new();
        let mut last = store
            .open(Origin::Page {
                object: 7,
                first: 65000,
            })
            .ok_or("full")?;
        for g in 0..120u8 {
            let next = store.copy(last).ok_or("full")?;
            assert!(rt; store.put(next, g as u16, g));
            assert!(rt; store.close(last));
            last = next;
        }
        for g in 0..120u8 {
            assert_eq!(rt; end(&store, last, g as u16), Some(End::Frame(g)));
        }
        assert_eq!(rt;
            end(&store, last, 4095),
            Some(End::Page {
                object: 7,
                page: 69095
            })
        );
        assert_eq!(rt; visits(&store, last, 4095), Some(1));
        assert_eq!(rt; store.held(), 120);
        assert_eq!(rt; store.records_in_use(), 1);
        Ok(())
    }

    // A chain of records, each over the one before, is closed from both ends.
    #[test]
    fn both_ends(rt: HostRuntime) -> Result<(), Fail> {
        let mut store = Store::new();
        let mut last = store.open(Origin::Zeros).ok_or("full")?;
        for g in 1..41u8 {
            last = store.copy(last).ok_or("full")?;
            assert_eq!(rt; last, g);
            assert!(rt; store.put(last, g as u16 % 8, g));
        }
        assert_eq!(rt; visits(&store, 40, 100), Some(41));
        for g in 0..20u8 {
            assert!(rt; store.close(g));
            assert!(rt; store.close(40 - g));
        }
        assert_eq!(rt; store.records_in_use(), 1);
        assert_eq!(rt; visits(&store, 20, 100), Some(1));
        assert_eq!(rt; end(&store, 20, 100), Some(End::Zeros));
        // Page 0 was last written by record 16, page 4 by record 20, page 5 by record 13.
        assert_eq!(rt; end(&store, 20, 0), Some(End::Frame(16)));
        assert_eq!(rt; end(&store, 20, 4), Some(End::Frame(20)));
        assert_eq!(rt; end(&store, 20, 5), Some(End::Frame(13)));
        assert_eq!(rt; store.held(), 8);
        Ok(())
    }

    // All 256 records are in use, and every one has a top of its own: 511 objects are live.
    #[test]
    fn all_records(rt: HostRuntime) -> Result<(), Fail> {
        let mut store = Store::new();
        assert_eq!(rt; store.open(Origin::Zeros), Some(0));
        for k in 1..256u16 {
            let fresh = store.copy(0).ok_or("full")?;
            assert_eq!(rt; fresh as u16, k);
            assert!(rt; store.put(fresh, 3, 0));
            assert!(rt; store.put(0, 3, 0));
        }
        assert_eq!(rt; store.records_in_use(), 256);
        assert_eq!(rt; store.open(Origin::Zeros), None);
        assert_eq!(rt; store.copy(0), None);
        assert_eq!(rt; end(&store, 0, 3), Some(End::Frame(0)));
        assert_eq!(rt; visits(&store, 0, 4), Some(256));
        assert!(rt; store.close(77));
        assert!(rt; !store.close(77));
        assert_eq!(rt; store.copy(77), None);
        assert_eq!(rt; store.copy(200), Some(77));
        assert!(rt; store.in_use(77));
        Ok(())
    }

    // All 128 frames are held.
    #[test]
    fn all_frames(rt: HostRuntime) -> Result<(), Fail> {
        let mut store = Store::new();
        let sharing = store.open(Origin::Zeros).ok_or("full")?;
        for s in 0..128u8 {
            assert_eq!(rt; store.free_slot(128), Some(s));
            assert!(rt; store.put(sharing, 4095 - s as u16, s));
        }
        assert_eq!(rt; store.held(), 128);
        assert_eq!(rt; store.free_slot(128), None);
        assert!(rt; !store.put(sharing, 0, 128));
        assert!(rt; !store.put(sharing, 4095, 1));
        assert!(rt; store.put(sharing, 4095, 0));
        assert!(rt; store.release(5));
        assert!(rt; !store.release(5));
        assert_eq!(rt; end(&store, sharing, 4090), Some(End::Zeros));
        assert_eq!(rt; store.free_slot(5), None);
        assert_eq!(rt; store.free_slot(6), Some(5));
        assert_eq!(rt; store.held(), 127);
        Ok(())
    }

    // A page in a shared top moves up to the record that writes it.
    #[test]
    fn moves_up(rt: HostRuntime) -> Result<(), Fail> {
        let mut store = Store::new();
        let first = store.open(Origin::Zeros).ok_or("full")?;
        assert!(rt; store.put(first, 9, 2));
        let second = store.copy(first).ok_or("full")?;
        assert_eq!(rt; end(&store, second, 9), Some(End::Frame(2)));
        assert!(rt; store.put(second, 9, 2));
        assert_eq!(rt; end(&store, second, 9), Some(End::Frame(2)));
        assert_eq!(rt; end(&store, first, 9), Some(End::Zeros));
        let owner = store.owner(2).ok_or("free")?;
        assert_eq!(rt; owner.index, 9);
        assert_eq!(rt; store.frame_at(owner), Some(2));
        assert!(rt; store.close(second));
        assert_eq!(rt; store.held(), 0);
        Ok(())
    }
}
