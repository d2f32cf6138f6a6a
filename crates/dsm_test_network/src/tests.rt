//! Units of worlds, with the lines that go out and the text of the trace.

use crate::run::{lines_of, setup_of_four, setup_of_two, world};
use crate::thread::{Role, Threads};
use dsm_base::{Act, Cell, Finished, Proc};
use std::test::Fail;

/// The readers 2 and 3 are granted the lock together; the writer 1 and the reader 0 wait.
const READERS_FIRST: &[Act] = &[
    Act::Step(Proc(2)),
    Act::Deliver(Proc(2), Proc(0)),
    Act::Step(Proc(3)),
    Act::Deliver(Proc(3), Proc(0)),
    Act::Step(Proc(1)),
    Act::Deliver(Proc(1), Proc(0)),
    Act::Step(Proc(0)),
    Act::Deliver(Proc(0), Proc(2)),
    Act::Deliver(Proc(0), Proc(3)),
    Act::Step(Proc(3)),
    Act::Step(Proc(3)),
    Act::Step(Proc(3)),
    Act::Step(Proc(3)),
    Act::Deliver(Proc(3), Proc(0)),
    Act::Step(Proc(2)),
    Act::Step(Proc(2)),
    Act::Step(Proc(2)),
    Act::Step(Proc(2)),
    Act::Deliver(Proc(2), Proc(0)),
];

/// The writer takes the lock, and then the reader who asked after it.
const WRITER_BETWEEN: &[Act] = &[
    Act::Deliver(Proc(0), Proc(1)),
    Act::Step(Proc(1)),
    Act::Step(Proc(1)),
    Act::Step(Proc(1)),
    Act::Deliver(Proc(1), Proc(0)),
    Act::Step(Proc(0)),
    Act::Step(Proc(0)),
    Act::Step(Proc(0)),
    Act::Deliver(Proc(0), Proc(1)),
];

/// All come to their ends.
const TO_THE_END: &[Act] = &[
    Act::Step(Proc(0)),
    Act::Step(Proc(0)),
    Act::Step(Proc(1)),
    Act::Step(Proc(2)),
    Act::Step(Proc(3)),
    Act::Step(Proc(0)),
    Act::Deliver(Proc(2), Proc(3)),
];

#[test]
fn two_readers_hold_a_lock_together_and_a_writer_alone(rt: HostRuntime) -> Result<(), Fail> {
    let maker = Threads {
        one: Proc(1),
        role: Role::Writes(Cell(0), 5),
        others: Role::Reads(Cell(0)),
    };
    let mut world = world(rt.alloc(), setup_of_four(rt.alloc())?, maker)?;
    let text = lines_of(rt.alloc(), &mut world, 4, READERS_FIRST)?;
    assert_eq!(rt; text.as_slice(), b"P3: 0\nP2: 0\n".as_slice());
    let text = lines_of(rt.alloc(), &mut world, 4, WRITER_BETWEEN)?;
    assert_eq!(rt; text.as_slice(), b"P0: 5\n".as_slice());
    assert_eq!(rt; world.finished(), Finished::Unfinished);
    let text = lines_of(rt.alloc(), &mut world, 4, TO_THE_END)?;
    assert_eq!(rt; text.len(), 0);
    assert_eq!(rt; world.finished(), Finished::Done);
    assert_eq!(rt; world.units(), 35);
    Ok(())
}

/// One processor has the lock and gives it back, and the other asks for it.
const ONE_LINE: &[Act] = &[
    Act::Step(Proc(0)),
    Act::Step(Proc(0)),
    Act::Step(Proc(0)),
    Act::Step(Proc(0)),
    Act::Step(Proc(1)),
    Act::Deliver(Proc(1), Proc(0)),
];

const ONE_LINE_TEXT: &str = "unit 1
turn 0 1 ask 0 excl
unit 2
turn 0 2 take 0 excl 0 lines
unit 3
turn 0 3 store 9 0
unit 4
turn 0 4 give 0
unit 5
turn 1 1 ask 0 excl
sent 1 1 0 req 0 excl 0
unit 6
delivered 1
sent 2 0 1 grant 0 excl 1 lines 1
";

#[test]
fn one_line_of_three_is_shipped(rt: HostRuntime) -> Result<(), Fail> {
    let maker = Threads {
        one: Proc(0),
        role: Role::Writes(Cell(9), 0),
        others: Role::Passes,
    };
    let mut world = world(rt.alloc(), setup_of_two(rt.alloc())?, maker)?;
    let lines = lines_of(rt.alloc(), &mut world, 2, ONE_LINE)?;
    assert_eq!(rt; lines.len(), 0);
    let mut text = Vec::new(rt.alloc());
    world.trace().text(rt.alloc(), &mut text)?;
    assert_eq!(rt; text.as_slice(), ONE_LINE_TEXT.as_bytes());
    assert_eq!(rt; world.into_trace().groups().len(), 6);
    Ok(())
}
