//! Savers over boxed stores of mixed kinds.

ghost use Rattle.std.specs.Prelude.{◌≡◌, None, IfOk};
ghost use Rattle.dsm_saver.specs.Blocks.{IsImage};
ghost use Rattle.dsm_saver.specs.States.{Fits, HasMark};

use dsm_adapt::DirStore;
use dsm_base::{CallKind, LoadErr, MemStore, Store};
use dsm_saver::{Begun, Saver, Wrote};
use dsm_stores::{Fuse, MuteStore};
use std::alloc::Global;
use std::fs;
use std::process::Abort;
use std::test::Fail;

/// How an image of two blocks ends, of which one is written.
#[derive(Clone, Copy, Debug)]
enum Ending {
    Stopped,
    Torn(u32),
    Loaded,
    Marked,
}

/// Images one after the other, each of bytes of its own; how each ends; and of which bytes the image
/// is that is saved then.
const ENDINGS: &[(u8, Ending, Option<u8>)] = &[
    (1, Ending::Stopped, None),
    (2, Ending::Torn(0), None),
    (3, Ending::Torn(512), None),
    (4, Ending::Loaded, None),
    (5, Ending::Marked, Some(5)),
    (6, Ending::Stopped, Some(5)),
    (7, Ending::Torn(0), Some(5)),
    (8, Ending::Torn(1), Some(5)),
    (9, Ending::Torn(511), Some(5)),
    (10, Ending::Torn(512), Some(5)),
    (11, Ending::Loaded, Some(5)),
    (12, Ending::Marked, Some(12)),
    (13, Ending::Torn(100), Some(12)),
    (14, Ending::Marked, Some(14)),
];

/// An image of two blocks.
fn image(alloc: Global, byte: u8) -> Result<Vec<u8>, Fail>
    ensures { IfOk result (λ bytes. IsImage bytes.items) }
{
    Ok(vec![in alloc; byte; 1024]?)
}

/// Whether an image of two blocks of this byte was loaded, or none.
fn is_saved(loaded: &Option<Vec<u8>>, byte: Option<u8>) -> bool {
    match loaded {
        None => byte.is_none(),
        Some(bytes) => bytes.len() == 1024 && bytes.iter().all(|b| Some(*b) == byte),
    }
}

/// Writes a block of the image under way, and ends it.
fn end(rt: &impl Abort, saver: &mut Saver, store: &mut dyn Store, ending: Ending)
    requires { Fits saver.old (store_holds store.old) (store_room store.old) }
{
    assert_eq!(rt; saver.block(store), Wrote::Block(0));
    match ending {
        Ending::Stopped => saver.stop(),
        Ending::Torn(kept) => {
            assert_eq!(rt; saver.torn(store, kept.min(512)), Wrote::Block(1));
        }
        Ending::Loaded => {}
        Ending::Marked => {
            assert_eq!(rt; saver.block(store), Wrote::Block(1));
            assert_eq!(rt; saver.block(store), Wrote::Marked(7));
            assert_eq!(rt; saver.block(store), Wrote::Nothing);
        }
    }
}

/// Begins an image in a store as it is, and ends it.
fn begin_and_end(
    rt: &impl Abort,
    alloc: Global,
    store: &mut dyn Store,
    byte: u8,
    ending: Ending,
) -> Result<(), Fail> {
    let mut saver = Saver::new();
    let _ = saver.load_last(alloc, store)?;
    let bytes = image(alloc, byte)?;
    assert_eq!(rt; saver.begin(store, bytes, 7)?, Begun::Started(2));
    end(rt, &mut saver, store, ending);
    Ok(())
}

/// Goes through all endings over one store.
fn go_through(rt: &impl Abort, alloc: Global, store: &mut Box<dyn Store>) -> Result<(), Fail> {
    for (byte, ending, saved) in ENDINGS {
        begin_and_end(rt, alloc, &mut **store, *byte, *ending)?;
        let loaded = Saver::new().load_last(alloc, &mut **store)?;
        assert!(rt; is_saved(&loaded, *saved), "{byte} {ending:?}");
    }
    assert_eq!(rt; store.faults(), 0);
    Ok(())
}

/// Removes what an earlier run left of a store in a folder.
fn clear_folder(rt: HostRuntime, folder: &str) -> Result<(), Fail> {
    for name in ["slot0", "slot1", "slot2", "mark", "mark.new"] {
        let path = format!(in rt.alloc(); "{folder}/{name}")?;
        let _ = fs::remove_file(&rt, path.as_str());
    }
    let _ = fs::remove_dir(&rt, folder);
    Ok(())
}

#[test]
fn the_last_marked_image_is_saved_in_each_kind_of_store(rt: HostRuntime) -> Result<(), Fail> {
    let alloc = rt.alloc();
    let folder = "dsm-stores/savers";
    clear_folder(rt, folder)?;
    let mut stores: Vec<Box<dyn Store>> = Vec::new(alloc);
    stores.push(Box::new(alloc, MemStore::new(alloc))?)?;
    stores.push(Box::new(alloc, Fuse::new(MemStore::new(alloc), 1000))?)?;
    stores.push(Box::new(alloc, MuteStore::new(MemStore::new(alloc), None))?)?;
    stores.push(Box::new(alloc, DirStore::new(alloc, rt, folder)?)?)?;
    for store in &mut stores {
        go_through(&rt, alloc, store)?;
    }
    clear_folder(rt, folder)
}

/// Writes an image of two blocks whole, and answers whether it was marked.
fn is_marked(
    alloc: Global,
    saver: &mut Saver,
    store: &mut dyn Store,
    byte: u8,
) -> Result<bool, Fail>
    requires none { saver.old.image ≡ None }
    requires mark { HasMark saver.old.marked (store_holds store.old) }
{
    let bytes = image(alloc, byte)?;
    let _ = saver.begin(store, bytes, 7)?;
    let _ = saver.block(store);
    let _ = saver.block(store);
    Ok(saver.block(store) == Wrote::Marked(7))
}

/// Writes one image after another, of which the second fails, and loads.
fn fail_the_second(rt: &impl Abort, alloc: Global, store: &mut dyn Store) -> Result<(), Fail> {
    let mut saver = Saver::new();
    let _ = saver.load_last(alloc, store)?;
    assert!(rt; is_marked(alloc, &mut saver, store, 1)?);
    let _ = saver.load_last(alloc, store)?;
    assert!(rt; !is_marked(alloc, &mut saver, store, 2)?);
    assert_eq!(rt; store.faults(), 1);
    let loaded = saver.load_last(alloc, store)?;
    assert!(rt; is_saved(&loaded, Some(1)));
    Ok(())
}

#[test]
fn an_image_that_fails_is_given_up(rt: HostRuntime) -> Result<(), Fail> {
    for (call, nth) in [
        (CallKind::Room, 2),
        (CallKind::Write, 3),
        (CallKind::Write, 4),
        (CallKind::Mark, 2),
    ] {
        let mut store = MemStore::new(rt.alloc());
        store.fail(call, nth.max(1))?;
        fail_the_second(&rt, rt.alloc(), &mut store)?;
    }
    Ok(())
}

#[test]
fn a_load_that_fails_is_a_fault_of_the_store(rt: HostRuntime) -> Result<(), Fail> {
    for (call, nth) in [
        (CallKind::Marked, 2),
        (CallKind::Read, 1),
        (CallKind::Read, 2),
    ] {
        let mut store = MemStore::new(rt.alloc());
        store.fail(call, nth.max(1))?;
        let mut saver = Saver::new();
        let _ = saver.load_last(rt.alloc(), &mut store)?;
        assert!(rt; is_marked(rt.alloc(), &mut saver, &mut store, 1)?);
        assert_eq!(rt;
            saver.load_last(rt.alloc(), &mut store).err(),
            Some(LoadErr::StoreFault)
        );
        assert_eq!(rt; store.faults(), 1);
        let loaded = saver.load_last(rt.alloc(), &mut store)?;
        assert!(rt; is_saved(&loaded, Some(1)));
    }
    Ok(())
}
