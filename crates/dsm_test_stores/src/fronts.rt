//! Stores that stand in front of another one.

use dsm_base::{Failed, MemStore, Store};
use dsm_stores::{Fuse, MuteStore};
use std::test::Fail;

#[test]
fn a_fuse_fails_for_good_after_its_calls(rt: HostRuntime) {
    for (calls, first, second, faults) in [
        (0, false, false, 2),
        (1, true, false, 1),
        (2, true, true, 0),
    ] {
        let mut store = Fuse::new(MemStore::new(rt.alloc()), calls);
        assert_eq!(rt; store.marked().is_ok(), first, "{calls}");
        assert_eq!(rt; store.marked().is_ok(), second, "{calls}");
        assert_eq!(rt; store.faults(), faults, "{calls}");
    }
}

/// The second block of a slot with room for two, as it is read.
fn second_block(store: &mut MuteStore<MemStore>) -> Result<[u8; 512], Fail> {
    let mut block = [0; 512];
    store.room(1, 2)?;
    store.read(1, 1, &mut block)?;
    Ok(block)
}

#[test]
fn a_mute_store_raises_a_byte(rt: HostRuntime) -> Result<(), Fail> {
    for (at, first, last) in [
        (None, 0, 0),
        (Some(511), 0, 0),
        (Some(512), 1, 0),
        (Some(1023), 0, 1),
        (Some(1024), 0, 0),
    ] {
        let mut store = MuteStore::new(MemStore::new(rt.alloc()), at);
        let block = second_block(&mut store)?;
        assert_eq!(rt; (block[0], block[511]), (first, last), "{at:?}");
    }
    Ok(())
}

#[test]
fn a_mute_store_keeps_its_marked_slot(rt: HostRuntime) -> Result<(), Fail> {
    let mut store = MuteStore::new(MemStore::new(rt.alloc()), None);
    store.room(2, 1)?;
    store.mark(2, 1)?;
    assert_eq!(rt; store.write(2, 0, &[1; 512]).err(), Some(Failed));
    assert_eq!(rt; store.marked()?, Some((2, 1)));
    assert_eq!(rt; store.faults(), 1);
    Ok(())
}
