//! Texts with their picks, and texts that are refused.

use dsm_base::{Proc, SchedErr};
use dsm_picks::{PickEntry, read_picks};
use std::test::Fail;

const A: Proc = Proc(0);

const B: Proc = Proc(1);

const C: Proc = Proc(2);

#[test]
fn texts_stand_for_picks(rt: HostRuntime) -> Result<(), Fail> {
    const TABLE: &[(&str, u8, &[PickEntry], &[Proc])] = &[
        ("procs 2", 2, &[], &[]),
        ("procs 16\n# nothing\n", 16, &[], &[]),
        ("procs 2\npick 1\n", 2, &[PickEntry::Pick(B, 1)], &[B]),
        (
            "\n procs\t3 # three\r\n\n pick 2 2\r\nall 2 # rounds\npick 0",
            3,
            &[
                PickEntry::Pick(C, 2),
                PickEntry::All(2),
                PickEntry::Pick(A, 1),
            ],
            &[C, C, A, B, C, A, B, C, A],
        ),
        (
            "procs 2\nall 1\nall 1\npick 0 1\n",
            2,
            &[PickEntry::All(1), PickEntry::All(1), PickEntry::Pick(A, 1)],
            &[A, B, A, B, A],
        ),
    ];
    for &(text, procs, entries, picks) in TABLE {
        let found = read_picks(rt.alloc(), text.as_bytes())?;
        assert_eq!(rt; found.procs, procs, "{text}");
        assert_eq!(rt; found.entries.as_slice(), entries, "{text}");
        for (index, pick) in (0..).zip(picks) {
            assert_eq!(rt; found.pick(index), Some(*pick), "{text}");
        }
        for index in [9, 10, u32::MAX] {
            assert_eq!(rt; found.pick(index), None, "{text}");
        }
    }
    Ok(())
}

#[test]
fn other_texts_are_refused(rt: HostRuntime) -> Result<(), Fail> {
    const TABLE: &[(&str, SchedErr)] = &[
        ("", SchedErr::NoProcs),
        ("# procs 2\n", SchedErr::NoProcs),
        ("pick 0\nprocs 2\n", SchedErr::NoProcs),
        ("\rprocs 2\n", SchedErr::NoProcs),
        ("procs 2 2\n", SchedErr::BadEntry { line: 1 }),
        ("procs 17\n", SchedErr::OutOfRange { line: 1 }),
        // Words of no form.
        ("procs 2\n\nprocs 2\n", SchedErr::BadEntry { line: 3 }),
        ("procs 2\nstep 0\n", SchedErr::BadEntry { line: 2 }),
        ("procs 2\nPICK 0\n", SchedErr::BadEntry { line: 2 }),
        ("procs 2\npick\n", SchedErr::BadEntry { line: 2 }),
        ("procs 2\npick 0 1 1\n", SchedErr::BadEntry { line: 2 }),
        ("procs 2\npick 00\n", SchedErr::BadEntry { line: 2 }),
        ("procs 2\npick 0 01\n", SchedErr::BadEntry { line: 2 }),
        ("procs 2\npick a 1\n", SchedErr::BadEntry { line: 2 }),
        (
            "procs 2\npick 0 1000000000\n",
            SchedErr::BadEntry { line: 2 },
        ),
        ("procs 2\nall\n", SchedErr::BadEntry { line: 2 }),
        ("procs 2\nall 1 1\n", SchedErr::BadEntry { line: 2 }),
        ("procs 2\nall +1\n", SchedErr::BadEntry { line: 2 }),
        ("procs 2\npick 0\r", SchedErr::BadEntry { line: 2 }),
        ("procs 2\npick 0\r#\n", SchedErr::BadEntry { line: 2 }),
        // Numbers out of their ranges.
        ("procs 2\n#\npick 2\n", SchedErr::OutOfRange { line: 3 }),
        ("procs 2\npick 256\n", SchedErr::OutOfRange { line: 2 }),
        ("procs 2\npick 0 0\n", SchedErr::OutOfRange { line: 2 }),
        ("procs 2\npick 1 500001\n", SchedErr::OutOfRange { line: 2 }),
        ("procs 2\nall 0\n", SchedErr::OutOfRange { line: 2 }),
        ("procs 2\nall 500001\n", SchedErr::OutOfRange { line: 2 }),
        ("procs 2\nall 999999999\n", SchedErr::OutOfRange { line: 2 }),
        // Two faults.
        ("procs 1\npick\n", SchedErr::OutOfRange { line: 1 }),
        ("procs two\nall 0\n", SchedErr::BadEntry { line: 1 }),
        ("procs 2\npick 2\nall\n", SchedErr::OutOfRange { line: 2 }),
        ("procs 2\nall\npick 2\n", SchedErr::BadEntry { line: 2 }),
        ("procs 2\npick 9 x\n", SchedErr::BadEntry { line: 2 }),
        (
            "procs 2\nall 500000\npick 2\n",
            SchedErr::OutOfRange { line: 3 },
        ),
        ("pick 0 0\nprocs 99\n", SchedErr::NoProcs),
        // Too many units.
        (
            "procs 2\npick 0 500000\npick 1\n",
            SchedErr::TooMany { count: 500_001 },
        ),
        (
            "procs 3\nall 166667\n",
            SchedErr::TooMany { count: 500_001 },
        ),
        (
            "procs 16\nall 500000\nall 500000\npick 15 500000\n",
            SchedErr::TooMany { count: 16_500_000 },
        ),
    ];
    for &(text, refusal) in TABLE {
        let found = read_picks(rt.alloc(), text.as_bytes()).err();
        assert_eq!(rt; found, Some(refusal), "{text}");
    }
    Ok(())
}

#[test]
fn units_have_a_limit(rt: HostRuntime) -> Result<(), Fail> {
    const TABLE: &[(&str, Proc)] = &[
        ("procs 2\npick 1 500000", B),
        ("procs 2\nall 250000\n", B),
        ("procs 2\nall 249999\npick 1\npick 0", A),
        ("procs 3\nall 166666\npick 2 2", C),
    ];
    for &(text, last) in TABLE {
        let picks = read_picks(rt.alloc(), text.as_bytes())?;
        assert_eq!(rt; picks.pick(499_999), Some(last), "{text}");
        assert_eq!(rt; picks.pick(500_000), None, "{text}");
    }
    Ok(())
}

#[test]
fn bytes_have_a_limit(rt: HostRuntime) -> Result<(), Fail> {
    let alloc = rt.alloc();
    let mut text = Vec::from_slice(alloc, b"procs 2\npick 1\n#")?;
    text.resize(4_194_304, b'-')?;
    let picks = read_picks(alloc, text.as_slice())?;
    assert_eq!(rt;
        picks.entries.as_slice(),
        [PickEntry::Pick(B, 1)].as_slice()
    );
    // The bytes are counted before anything is read.
    for (more, bytes) in [("\npick 9", 4_194_311), ("\nprocs", 4_194_317)] {
        text.extend_from_slice(more.as_bytes())?;
        let refusal = read_picks(alloc, text.as_slice()).err();
        assert_eq!(rt; refusal, Some(SchedErr::TooLong { bytes }));
    }
    Ok(())
}
