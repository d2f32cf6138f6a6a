//! Threads that are saved before a step, and go on from their bytes.

use crate::threads::{CALLER, ENDLESS, LOCKED, parts};
use dsm_base::{LoadErr, MemFault, Proc, Task, Want};
use dsm_code::{Code, Parts};
use dsm_thread::Thread;
use std::alloc::Global;
use std::rc::Rc;
use std::test::Fail;

/// The code of parts that are code.
fn code_of(alloc: Global, parts: Parts) -> Result<Rc<Code>, Fail> {
    let code = Code::new(parts).ok_or("no code")?;
    Ok(Rc::new(alloc, code)?)
}

/// Makes the next step of a thread, with this value in every shared cell.
fn step(thread: &mut Thread, cell: i64) {
    match thread.want() {
        Want::Over => {}
        Want::Stop(fault, _) => thread.stop(fault),
        Want::Load(_, _) => thread.done(cell),
        _ => thread.done(0),
    }
}

/// The bytes of a saved thread.
fn saved(alloc: Global, thread: &Thread) -> Result<Vec<u8>, MemFault> {
    let mut bytes = Vec::new(alloc);
    thread.save(&mut bytes)?;
    Ok(bytes)
}

/// The thread of processor 1 of 2 in `LOCKED`, right before it loads the second cell.
const BEFORE_THE_LOAD: [u8; 75] = [
    // It goes on.
    0, 0, 0, 0, 0, 0, // Two private cells.
    0, 0, 0, 2, 0, 0, 0, 0, 0, 0, 0, 0, 0, 0, 0, 0, 0, 0, 0, 0,
    // No function waits; the first function is at place 6, with five values.
    0, 0, 0, 0, 0, 0, 6, 0, 5, // Three slots.
    0, 0, 0, 0, 0, 0, 0, 1, 0, 0, 0, 0, 0, 0, 0, 2, 0, 0, 0, 0, 0, 0, 0, 0,
    // Two operands.
    0, 0, 0, 0, 0, 0, 0, 1, 0, 0, 0, 0, 0, 0, 0, 1,
];

#[test]
fn a_thread_is_saved_field_by_field(rt: HostRuntime) -> Result<(), Fail> {
    let alloc = rt.alloc();
    let code = code_of(alloc, parts(alloc, LOCKED, ENDLESS)?)?;
    let mut thread = Thread::start(alloc, code, Proc(1), 2)?;
    step(&mut thread, -7);
    step(&mut thread, -7);
    let bytes = saved(alloc, &thread)?;
    assert_eq!(rt; bytes.as_slice(), BEFORE_THE_LOAD.as_slice());
    Ok(())
}

/// A byte that is changed, its value, and the place that is told: of that field, or of the place of the
/// function where it is no call.
const CHANGES: &[(usize, u8, u32)] = &[
    (0, 3, 0),
    (1, 1, 1),
    (5, 9, 2),
    (9, 3, 6),
    (26, 1, 29),
    (28, 1, 27),
    (32, 7, 29),
    (34, 4, 33),
];

#[test]
fn a_field_that_no_thread_has_is_told_at_its_place(rt: HostRuntime) -> Result<(), Fail> {
    let alloc = rt.alloc();
    let code = code_of(alloc, parts(alloc, LOCKED, ENDLESS)?)?;
    for (at, byte, place) in CHANGES {
        let mut bytes = Vec::from_array(alloc, BEFORE_THE_LOAD)?;
        if let Some(there) = bytes.get_mut(*at) {
            *there = *byte;
        }
        let answer = Thread::load(alloc, code.clone()?, Proc(1), 2, bytes.as_slice()).err();
        assert_eq!(rt; answer, Some(LoadErr::BadImage { place: *place }));
    }
    Ok(())
}

/// Whether a thread that is saved and loaded before each step wants what one that isn't does, and has
/// the same bytes, up to where both are over.
fn goes_on_alike(alloc: Global, code: &Rc<Code>, cell: i64) -> Result<bool, Fail> {
    let mut thread = Thread::start(alloc, code.clone()?, Proc(1), 2)?;
    let mut other = Thread::start(alloc, code.clone()?, Proc(1), 2)?;
    for _ in 0..300u32 {
        let bytes = saved(alloc, &other)?;
        other = Thread::load(alloc, code.clone()?, Proc(1), 2, bytes.as_slice())?;
        if thread.want() != other.want() || saved(alloc, &thread)?.as_slice() != bytes.as_slice() {
            return Ok(false);
        }
        step(&mut thread, cell);
        step(&mut other, cell);
    }
    Ok(thread.want() == Want::Over)
}

#[test]
fn a_loaded_thread_goes_on_as_the_saved_one(rt: HostRuntime) -> Result<(), Fail> {
    let alloc = rt.alloc();
    let locked = code_of(alloc, parts(alloc, LOCKED, ENDLESS)?)?;
    assert!(rt; goes_on_alike(alloc, &locked, -7)?);
    assert!(rt; goes_on_alike(alloc, &locked, i64::MAX)?);
    let endless = code_of(alloc, parts(alloc, CALLER, ENDLESS)?)?;
    assert!(rt; goes_on_alike(alloc, &endless, 0)?);
    Ok(())
}
