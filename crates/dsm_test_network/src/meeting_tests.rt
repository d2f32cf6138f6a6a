//! Rounds of threads that cross a barrier, with the lines that go out.

use crate::crossing::{Course, Crossers};
use crate::meeting::{crossing_world, rounds_of, setup_of_one_cell, setup_of_three};
use dsm_base::{Act, Finished, Proc};
use dsm_state::put_state;
use std::test::Fail;

/// Each of three processors makes a turn, and then its oldest messages are delivered.
const ROUND_OF_THREE: &[Act] = &[
    Act::Step(Proc(0)),
    Act::Deliver(Proc(0), Proc(1)),
    Act::Deliver(Proc(0), Proc(2)),
    Act::Step(Proc(1)),
    Act::Deliver(Proc(1), Proc(0)),
    Act::Deliver(Proc(1), Proc(2)),
    Act::Step(Proc(2)),
    Act::Deliver(Proc(2), Proc(0)),
    Act::Deliver(Proc(2), Proc(1)),
];

/// The same of two.
const ROUND_OF_TWO: &[Act] = &[
    Act::Step(Proc(0)),
    Act::Deliver(Proc(0), Proc(1)),
    Act::Step(Proc(1)),
    Act::Deliver(Proc(1), Proc(0)),
];

#[test]
fn values_are_shifted_through_two_epochs(rt: HostRuntime) -> Result<(), Fail> {
    let maker = Crossers {
        course: Course::Shifts,
    };
    let mut world = crossing_world(rt.alloc(), setup_of_three(rt.alloc())?, maker)?;
    let text = rounds_of(rt.alloc(), &mut world, 3, ROUND_OF_THREE, 10)?;
    assert_eq!(rt; text.as_slice(), b"P0: 30\nP1: 10\nP2: 20\n".as_slice());
    assert_eq!(rt; world.finished(), Finished::Done);
    assert_eq!(rt; world.units(), 90);
    let mut state = Vec::new(rt.alloc());
    put_state(rt.alloc(), &world, &mut state)?;
    assert_eq!(rt;
        state.as_slice(),
        b"P0 turn 10 end\nP1 turn 10 end\nP2 turn 10 end\n".as_slice()
    );
    Ok(())
}

#[test]
fn a_store_in_an_epoch_too_late_is_a_fault(rt: HostRuntime) -> Result<(), Fail> {
    let maker = Crossers {
        course: Course::StoresLate,
    };
    let mut world = crossing_world(rt.alloc(), setup_of_one_cell(rt.alloc())?, maker)?;
    let text = rounds_of(rt.alloc(), &mut world, 2, ROUND_OF_TWO, 5)?;
    assert_eq!(rt;
        text.as_slice(),
        b"P0: fault unbound line 6\nP1: fault unbound line 6\n".as_slice()
    );
    assert_eq!(rt; world.finished(), Finished::Stopped);
    Ok(())
}
