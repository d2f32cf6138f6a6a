//! Texts with their schedules, and texts that are refused.

use dsm_base::{Act, Proc, SchedErr};
use dsm_sched::{Entry, MOST_BYTES, MOST_UNITS, read_schedule};
use std::test::Fail;

const A: Proc = Proc(0);

const B: Proc = Proc(1);

#[test]
fn texts_stand_for_schedules(rt: HostRuntime) -> Result<(), Fail> {
    const TABLE: &[(&str, u8, &[Entry])] = &[
        ("procs 2", 2, &[]),
        ("procs 16\nfinish 1", 16, &[Entry::Finish(1)]),
        ("\n# two processors\n \t\r\n\tprocs \t 2#2\r\n\n", 2, &[]),
        ("procs 2\nstep 0", 2, &[Entry::Unit(Act::Step(A), 1)]),
        (
            "procs 2\nstep 0\r\nstep 1 3\r\n",
            2,
            &[Entry::Unit(Act::Step(A), 1), Entry::Unit(Act::Step(B), 3)],
        ),
        (
            "procs 2\n deliver\t0 1 2 # \u{e9}\n \ndeliver 1 0",
            2,
            &[
                Entry::Unit(Act::Deliver(A, B), 2),
                Entry::Unit(Act::Deliver(B, A), 1),
            ],
        ),
        ("procs 2\nfinish 1000\n", 2, &[Entry::Finish(1000)]),
        (
            "procs 2\nstep 1 499999\ndeliver 1 0",
            2,
            &[
                Entry::Unit(Act::Step(B), 499_999),
                Entry::Unit(Act::Deliver(B, A), 1),
            ],
        ),
    ];
    for &(text, procs, entries) in TABLE {
        let schedule = read_schedule(rt.alloc(), text.as_bytes())?;
        assert_eq!(rt; schedule.procs, procs, "{text}");
        assert_eq!(rt; schedule.entries.as_slice(), entries, "{text}");
    }
    Ok(())
}

#[test]
fn units_come_one_by_one(rt: HostRuntime) -> Result<(), Fail> {
    const TEXT: &str = "procs 2\nstep 1 2\nfinish 2\ndeliver 1 0\n";
    const UNITS: &[Option<Act>] = &[
        Some(Act::Step(B)),
        Some(Act::Step(B)),
        Some(Act::Step(A)),
        Some(Act::Deliver(A, B)),
        Some(Act::Step(B)),
        Some(Act::Deliver(B, A)),
        Some(Act::Step(A)),
        Some(Act::Deliver(A, B)),
        Some(Act::Step(B)),
        Some(Act::Deliver(B, A)),
        Some(Act::Deliver(B, A)),
        None,
    ];
    let schedule = read_schedule(rt.alloc(), TEXT.as_bytes())?;
    for (index, unit) in (0..).zip(UNITS) {
        assert_eq!(rt; schedule.act(index), *unit);
    }
    Ok(())
}

#[test]
fn other_texts_are_refused(rt: HostRuntime) -> Result<(), Fail> {
    const TABLE: &[(&str, SchedErr)] = &[
        // Another first entry, or none.
        ("", SchedErr::NoProcs),
        ("# procs 2\n", SchedErr::NoProcs),
        ("step 0\n", SchedErr::NoProcs),
        ("\rprocs 2\n", SchedErr::NoProcs),
        ("procs 02\n", SchedErr::BadEntry { line: 1 }),
        ("procs\n", SchedErr::BadEntry { line: 1 }),
        ("\nprocs 2 2\n", SchedErr::BadEntry { line: 2 }),
        ("procs 1\n", SchedErr::OutOfRange { line: 1 }),
        ("procs 17\n", SchedErr::OutOfRange { line: 1 }),
        // Words of another form.
        ("procs 2\nprocs 2\n", SchedErr::BadEntry { line: 2 }),
        ("procs 2\nskip 0\n", SchedErr::BadEntry { line: 2 }),
        ("procs 2\nSTEP 0\n", SchedErr::BadEntry { line: 2 }),
        ("procs 2\nstep\n", SchedErr::BadEntry { line: 2 }),
        ("procs 2\nstep 0 1 1\n", SchedErr::BadEntry { line: 2 }),
        ("procs 2\n\ndeliver 0\n", SchedErr::BadEntry { line: 3 }),
        ("procs 2\nstep 0\r", SchedErr::BadEntry { line: 2 }),
        ("procs 2\nstep 00\n", SchedErr::BadEntry { line: 2 }),
        ("procs 2\nstep 0 +1\n", SchedErr::BadEntry { line: 2 }),
        // Numbers out of their ranges.
        ("procs 2\nstep 2\n", SchedErr::OutOfRange { line: 2 }),
        ("procs 2\ndeliver 0 2\n", SchedErr::OutOfRange { line: 2 }),
        ("procs 2\ndeliver 0 0\n", SchedErr::OutOfRange { line: 2 }),
        ("procs 2\nstep 0 0\n", SchedErr::OutOfRange { line: 2 }),
        ("procs 2\nstep 0 500001\n", SchedErr::OutOfRange { line: 2 }),
        // Too many units.
        (
            "procs 2\nstep 0 500000\nstep 1\n",
            SchedErr::TooMany { count: 500_001 },
        ),
        // What can't be run yet.
        ("procs 2\nstep 0\nckpt 0\n", SchedErr::NotBuilt { line: 3 }),
        (
            "procs 2\ncrash 0\nrestart 0\n",
            SchedErr::NotBuilt { line: 2 },
        ),
        // Two crashes, and a restart without one.
        (
            "procs 2\ncrash 0\nrestart 0\ncrash 1\n",
            SchedErr::SecondCrash { line: 4 },
        ),
        ("procs 2\nrestart 0\n", SchedErr::NoCrash { line: 2 }),
    ];
    for &(text, refusal) in TABLE {
        let found = read_schedule(rt.alloc(), text.as_bytes()).err();
        assert_eq!(rt; found, Some(refusal), "{text}");
    }
    Ok(())
}

#[test]
fn bytes_have_a_limit(rt: HostRuntime) -> Result<(), Fail> {
    let alloc = rt.alloc();
    let mut text = Vec::from_slice(alloc, b"procs 2\nstep 1\n#")?;
    text.resize(MOST_BYTES, b'-')?;
    let schedule = read_schedule(alloc, text.as_slice())?;
    assert_eq!(rt; schedule.act(0), Some(Act::Step(B)));
    text.push(b'-')?;
    let refusal = read_schedule(alloc, text.as_slice()).err();
    assert_eq!(rt; refusal, Some(SchedErr::TooLong { bytes: 4_194_305 }));
    assert_eq!(rt; MOST_UNITS, 500_000);
    Ok(())
}
