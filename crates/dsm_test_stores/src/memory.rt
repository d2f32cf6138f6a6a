//! Stores in memory.

use dsm_base::{CallKind, Failed, MemStore, Store};
use std::test::Fail;

#[test]
fn a_planned_call_fails_once(rt: HostRuntime) -> Result<(), Fail> {
    let mut store = MemStore::new(rt.alloc());
    store.fail(CallKind::Clear, 2)?;
    store.clear()?;
    assert_eq!(rt; store.faults(), 0);
    assert_eq!(rt; store.clear().err(), Some(Failed));
    assert_eq!(rt; store.faults(), 1);
    store.clear()?;
    assert_eq!(rt; store.faults(), 1);
    Ok(())
}
