//! Rounds of more than two processors, and every refusal at its line.

use dsm_base::{Act, Proc, SchedErr};
use dsm_sched::{Entry, Schedule, read_schedule};
use sqlite_items::Items;
use std::test::Fail;

const A: Proc = Proc(0);

const B: Proc = Proc(1);

const C: Proc = Proc(2);

#[test]
fn rounds_have_all_turns(rt: HostRuntime) -> Result<(), Fail> {
    const ENTRIES: &[Entry] = &[Entry::Finish(2), Entry::Unit(Act::Restart(C), 1)];
    const ROUND: &[Act] = &[
        Act::Step(A),
        Act::Deliver(A, B),
        Act::Deliver(A, C),
        Act::Step(B),
        Act::Deliver(B, A),
        Act::Deliver(B, C),
        Act::Step(C),
        Act::Deliver(C, A),
        Act::Deliver(C, B),
    ];
    let entries = Items::from_slice(rt.alloc(), ENTRIES)?;
    let schedule = Schedule::new(rt.alloc(), 3, entries)?;
    assert_eq!(rt; schedule.units(), 19);
    for (index, act) in (0..).zip(ROUND) {
        assert_eq!(rt; schedule.act(index), Some(*act));
        assert_eq!(rt; schedule.act(index + 9), Some(*act));
    }
    assert_eq!(rt; schedule.act(18), Some(Act::Restart(C)));
    assert_eq!(rt; schedule.act(19), None);
    assert_eq!(rt; schedule.act(u32::MAX), None);
    Ok(())
}

#[test]
fn refusals_come_in_their_order(rt: HostRuntime) -> Result<(), Fail> {
    const TABLE: &[(&str, SchedErr)] = &[
        (
            "procs 2\nfinish 500000\n",
            SchedErr::TooMany { count: 2_000_000 },
        ),
        (
            "procs 16\nfinish 1954\n",
            SchedErr::TooMany { count: 500_224 },
        ),
        (
            "procs 16\nfinish 1953\nckpt 0\n",
            SchedErr::NotBuilt { line: 3 },
        ),
        ("\nprocs 2\ntorn 1 513\n", SchedErr::OutOfRange { line: 3 }),
        ("procs 2\nblock 0 500000\n", SchedErr::NotBuilt { line: 2 }),
        ("procs 2\ncrash 0 1\n", SchedErr::BadEntry { line: 2 }),
        (
            "procs 2\ncrash 0\nrestart 1\n",
            SchedErr::NoCrash { line: 3 },
        ),
        (
            "procs 2\ntorn 0 0\nrestart 0\nrestart 0\n",
            SchedErr::NoCrash { line: 4 },
        ),
        (
            "procs 2\ncrash 0\ntorn 2 0\n",
            SchedErr::OutOfRange { line: 3 },
        ),
        (
            "procs 2\ncrash 0\ntorn 1 0\nstep\n",
            SchedErr::SecondCrash { line: 3 },
        ),
        (
            "procs 2\nckpt 0\nstep 0 500000\n",
            SchedErr::TooMany { count: 500_001 },
        ),
    ];
    for &(text, refusal) in TABLE {
        let found = read_schedule(rt.alloc(), text.as_bytes()).err();
        assert_eq!(rt; found, Some(refusal), "{text}");
    }
    Ok(())
}
