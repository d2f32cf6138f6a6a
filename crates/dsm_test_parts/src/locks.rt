//! Who holds a lock and who waits.

use dsm_base::{MemFault, Mode, Proc};
use dsm_home::{HomeLock, Waiting};
use std::alloc::Global;
use std::test::Fail;

/// A processor asks in a turn. Answers how many are granted the lock by that.
fn ask(
    alloc: Global,
    lock: &mut HomeLock,
    proc: u8,
    turn: u32,
    mode: Mode,
) -> Result<usize, MemFault> {
    lock.request(Waiting {
        proc: Proc(proc),
        turn,
        mode,
        have: 0,
    })?;
    Ok(lock.grant(alloc)?.len())
}

/// A processor gives the lock back. Answers how many are granted the lock by that.
fn give(alloc: Global, lock: &mut HomeLock, proc: u8, mode: Mode) -> Result<usize, MemFault> {
    lock.release(Proc(proc), mode)?;
    Ok(lock.grant(alloc)?.len())
}

#[test]
fn readers_hold_together_and_a_writer_comes_before_a_later_reader(
    rt: HostRuntime,
) -> Result<(), Fail> {
    let alloc = rt.alloc();
    let mut lock = HomeLock::new(alloc);
    assert_eq!(rt; ask(alloc, &mut lock, 2, 2, Mode::Shared)?, 1);
    assert_eq!(rt; ask(alloc, &mut lock, 3, 2, Mode::Shared)?, 1);
    assert_eq!(rt; ask(alloc, &mut lock, 1, 2, Mode::Excl)?, 0);
    assert_eq!(rt; ask(alloc, &mut lock, 0, 2, Mode::Shared)?, 0);
    assert_eq!(rt; lock.waiting(), 2);
    assert_eq!(rt; give(alloc, &mut lock, 3, Mode::Shared)?, 0);
    assert_eq!(rt; give(alloc, &mut lock, 2, Mode::Shared)?, 1);
    assert_eq!(rt; lock.mode_of(Proc(1)), Some(Mode::Excl));
    assert!(rt; lock.waits(Proc(0)));
    assert_eq!(rt; lock.version(), 0);
    assert_eq!(rt; give(alloc, &mut lock, 1, Mode::Excl)?, 1);
    assert_eq!(rt; lock.mode_of(Proc(0)), Some(Mode::Shared));
    assert_eq!(rt; lock.version(), 1);
    Ok(())
}

#[test]
fn more_wait_than_stand_without_memory(rt: HostRuntime) -> Result<(), Fail> {
    let alloc = rt.alloc();
    let mut lock = HomeLock::new(alloc);
    assert_eq!(rt; ask(alloc, &mut lock, 0, 2, Mode::Excl)?, 1);
    for proc in 1..8 {
        assert_eq!(rt; ask(alloc, &mut lock, proc, 2, Mode::Shared)?, 0);
    }
    assert_eq!(rt; lock.waiting(), 7);
    assert_eq!(rt; give(alloc, &mut lock, 0, Mode::Excl)?, 7);
    assert_eq!(rt; lock.waiting(), 0);
    Ok(())
}
