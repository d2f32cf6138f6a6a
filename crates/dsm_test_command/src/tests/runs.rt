//! Runs by schedules.

use crate::tests::called::{Called, are_right, call, files};
use crate::tests::programs::{
    ADDER, COUNTER, DEEP, DIVIDED, FIRST, HANDED, LATE, LINES, MIXED, NOTHING, READERS, RING,
    SECOND, STORED, SUM, UNBOUND,
};
use dsm_base::MemSink;
use std::alloc::{AllocError, Global};
use std::test::Fail;

#[test]
fn runs_print_their_lines(rt: HostRuntime) -> Result<(), Fail> {
    const TABLE: &[Called] = &[
        Called {
            words: "run prog other",
            program: ADDER,
            other: FIRST,
            status: 0,
            units: 21,
            written: "P0: x=1\nP1: x=12\n",
        },
        Called {
            words: "run prog other",
            program: ADDER,
            other: SECOND,
            status: 0,
            units: 19,
            written: "P1: x=2\nP0: x=21\n",
        },
        Called {
            words: "run prog other",
            program: ADDER,
            other: "procs 3\n",
            status: 2,
            units: 0,
            written: "",
        },
        Called {
            words: "run prog other",
            program: ADDER,
            other: "procs 3\nfinish 20\n",
            status: 0,
            units: 180,
            written: "P0: x=1\nP1: x=12\nP2: x=123\n",
        },
        Called {
            words: "run prog other",
            program: STORED,
            other: "procs 2\nstep 0\nstep 1\n",
            status: 1,
            units: 2,
            written: "P0: fault unbound line 5\nP1: fault unbound line 5\n",
        },
        Called {
            words: "run prog other",
            program: NOTHING,
            other: "procs 2\n",
            status: 2,
            units: 0,
            written: "",
        },
        Called {
            words: "run prog other",
            program: NOTHING,
            other: "procs 2\nstep 0\nstep 1\n",
            status: 0,
            units: 2,
            written: "",
        },
        Called {
            words: "run prog other",
            program: NOTHING,
            other: "procs 2\nfinish 2\n",
            status: 0,
            units: 8,
            written: "",
        },
        Called {
            words: "run prog other",
            program: ADDER,
            other: "procs 2\nstep 0 500000\n",
            status: 2,
            units: 500000,
            written: "P0: x=1\n",
        },
        Called {
            words: "run prog other",
            program: ADDER,
            other: "# both wait\n\nprocs 2\nstep 1 3\nstep 0 1 # an ask\n",
            status: 2,
            units: 4,
            written: "",
        },
    ];
    are_right(&rt, rt.alloc(), TABLE)
}

#[test]
fn programs_of_the_whole_language_run(rt: HostRuntime) -> Result<(), Fail> {
    const TABLE: &[Called] = &[
        Called {
            words: "run prog other --state",
            program: COUNTER,
            other: "procs 2\nfinish 40\n",
            status: 0,
            units: 160,
            written: "P0: x=1\nP1: x=2\nP0: x=3\nP1: x=4\n--\nP0 turn 17 end\nP1 turn 17 end\nlock 0 version 4 cells 0=4\n",
        },
        Called {
            words: "run prog other",
            program: SUM,
            other: "procs 2\nfinish 2\n",
            status: 1,
            units: 8,
            written: "P0: 9223372036854775807\nP1: fault overflow line 3\n",
        },
        Called {
            words: "run prog other",
            program: UNBOUND,
            other: "procs 2\nfinish 10\n",
            status: 1,
            units: 40,
            written: "P0: fault unbound line 5\nP1: fault unbound line 7\n",
        },
        Called {
            words: "run prog other",
            program: RING,
            other: "procs 3\nfinish 10\n",
            status: 0,
            units: 90,
            written: "P0: 30\nP1: 10\nP2: 20\n",
        },
        Called {
            words: "run prog other",
            program: READERS,
            other: "procs 4\nstep 2\ndeliver 2 0\nstep 3\ndeliver 3 0\nstep 1\ndeliver 1 0\nstep 0\ndeliver 0 2\ndeliver 0 3\nstep 3 4\ndeliver 3 0\nstep 2 4\ndeliver 2 0\ndeliver 0 1\nstep 1 3\ndeliver 1 0\nstep 0 3\ndeliver 0 1\nfinish 5\n",
            status: 0,
            units: 108,
            written: "P3: 0\nP2: 0\nP0: 5\n",
        },
        Called {
            words: "run prog other",
            program: LATE,
            other: "procs 2\nfinish 5\n",
            status: 1,
            units: 20,
            written: "P0: fault unbound line 6\nP1: fault unbound line 6\n",
        },
        Called {
            words: "run prog other",
            program: DEEP,
            other: "procs 2\nstep 0 256\n",
            status: 2,
            units: 256,
            written: "P0: fault depth line 1\n",
        },
        Called {
            words: "run prog other --trace",
            program: LINES,
            other: "procs 2\nstep 0 4\nstep 1\ndeliver 1 0\n",
            status: 2,
            units: 6,
            written: "--\nunit 1\nturn 0 1 ask 0 excl\nunit 2\nturn 0 2 take 0 excl 0 lines\nunit 3\nturn 0 3 store 9 0\nunit 4\nturn 0 4 give 0\nunit 5\nturn 1 1 ask 0 excl\nsent 1 1 0 req 0 excl 0\nunit 6\ndelivered 1\nsent 2 0 1 grant 0 excl 1 lines 1\n",
        },
    ];
    are_right(&rt, rt.alloc(), TABLE)
}

#[test]
fn a_trace_comes_behind_the_lines(rt: HostRuntime) -> Result<(), Fail> {
    const TABLE: &[Called] = &[
        Called {
            words: "run prog other --trace",
            program: NOTHING,
            other: "procs 2\ndeliver 0 1\nfinish 1\n",
            status: 0,
            units: 5,
            written: "--\nunit 2\nturn 0 1 end\nunit 4\nturn 1 1 end\n",
        },
        Called {
            words: "run --trace prog other",
            program: ADDER,
            other: "procs 2\nstep 0 8\nstep 1\ndeliver 1 0\n",
            status: 2,
            units: 10,
            written: "P0: x=1\n--\nunit 1\nturn 0 1 ask 0 excl\nunit 2\nturn 0 2 take 0 excl 0 lines\nunit 3\nturn 0 3 load 0 0\nunit 4\nturn 0 4 store 0 1\nunit 5\nturn 0 5 load 0 1\nunit 6\nturn 0 6 line x=1\nout 0 6\nunit 7\nturn 0 7 give 0\nunit 8\nturn 0 8 end\nunit 9\nturn 1 1 ask 0 excl\nsent 1 1 0 req 0 excl 0\nunit 10\ndelivered 1\nsent 2 0 1 grant 0 excl 1 lines 0\n",
        },
        Called {
            words: "run prog other --trace",
            program: ADDER,
            other: "procs 2\n",
            status: 2,
            units: 0,
            written: "--\n",
        },
    ];
    are_right(&rt, rt.alloc(), TABLE)
}

#[test]
fn texts_have_each_kind_of_line(rt: HostRuntime) -> Result<(), Fail> {
    const TABLE: &[Called] = &[
        Called {
            words: "run prog other --state",
            program: RING,
            other: "procs 3\nfinish 10\n",
            status: 0,
            units: 90,
            written: "P0: 30\nP1: 10\nP2: 20\n--\nP0 turn 10 end\nP1 turn 10 end\nP2 turn 10 end\n",
        },
        Called {
            words: "run prog other --state",
            program: MIXED,
            other: "procs 2\nstep 0 3\n",
            status: 2,
            units: 3,
            written: "--\nP0 turn 2 running\nP1 turn 0 running\nlock 0 version 0 cells 3=0 4=0\nlock 1 version 0 cells 0=0 1=0\nlock 2 version 0 cells\n",
        },
        Called {
            words: "run prog other --state",
            program: MIXED,
            other: "procs 2\nfinish 20\n",
            status: 0,
            units: 80,
            written: "--\nP0 turn 6 end\nP1 turn 5 end\nlock 0 version 0 cells 3=0 4=0\nlock 1 version 2 cells 0=-5 1=0\nlock 2 version 0 cells\n",
        },
        Called {
            words: "run prog other --trace",
            program: HANDED,
            other: "procs 2\nstep 0 2\nstep 1\ndeliver 1 0\nstep 0\ndeliver 0 1\nstep 1 4\n",
            status: 2,
            units: 10,
            written: "P1: -3\n--\nunit 1\nturn 0 1 store 0 -3\nunit 2\nturn 0 2 arrive 0\nunit 3\nturn 1 1 arrive 0\nsent 1 1 0 arrive 0 0 lines\nunit 4\ndelivered 1\nsent 2 0 1 open 0 1 lines 0\nunit 5\nturn 0 3 cross 0 1 lines\nunit 6\ndelivered 2\nunit 7\nturn 1 2 cross 0 1 lines 0\nunit 8\nturn 1 3 load 0 -3\nunit 9\nturn 1 4 line -3\nout 1 4\nunit 10\nturn 1 5 end\n",
        },
        Called {
            words: "run prog other --trace --state",
            program: DIVIDED,
            other: "procs 2\nstep 1\ndeliver 1 0\ndeliver 0 1\nstep 1 4\n",
            status: 2,
            units: 7,
            written: "P1: fault divzero line 2\n--\nunit 1\nturn 1 1 ask 0 shared\nsent 1 1 0 req 0 shared 0\nunit 2\ndelivered 1\nsent 2 0 1 grant 0 shared 0 lines\nunit 3\ndelivered 2\nunit 4\nturn 1 2 take 0 shared 0 lines\nunit 5\nturn 1 3 give 0\nsent 3 1 0 release 0 shared 0 lines\nunit 6\nturn 1 4 quiet\nunit 7\nturn 1 5 stop divzero 2\nout 1 5\n--\nP0 turn 0 running\nP1 turn 5 stop divzero 2\nlock 0 version 0 cells\n",
        },
    ];
    are_right(&rt, rt.alloc(), TABLE)
}

#[test]
fn the_state_comes_last(rt: HostRuntime) -> Result<(), Fail> {
    const TABLE: &[Called] = &[
        Called {
            words: "run prog other --state",
            program: ADDER,
            other: FIRST,
            status: 0,
            units: 21,
            written: "P0: x=1\nP1: x=12\n--\nP0 turn 8 end\nP1 turn 8 end\nlock 0 version 2 cells 0=12\n",
        },
        // The home's values are those of the last hold that was given back.
        Called {
            words: "run prog other --state",
            program: ADDER,
            other: "procs 2\nstep 0 4\nstep 1\n",
            status: 2,
            units: 5,
            written: "--\nP0 turn 4 running\nP1 turn 1 running\nlock 0 version 0 cells 0=0\n",
        },
        Called {
            words: "run prog other --state",
            program: STORED,
            other: "procs 2\nstep 1\n",
            status: 2,
            units: 1,
            written: "P1: fault unbound line 5\n--\nP0 turn 0 running\nP1 turn 1 stop unbound 5\nlock 0 version 0 cells 0=0\n",
        },
        Called {
            words: "run --state prog other --trace",
            program: NOTHING,
            other: "procs 2\ndeliver 0 1\nfinish 1\n",
            status: 0,
            units: 5,
            written: "--\nunit 2\nturn 0 1 end\nunit 4\nturn 1 1 end\n--\nP0 turn 1 end\nP1 turn 1 end\n",
        },
    ];
    are_right(&rt, rt.alloc(), TABLE)
}

#[test]
fn schedules_are_refused(rt: HostRuntime) -> Result<(), Fail> {
    const TABLE: &[Called] = &[
        Called {
            words: "run prog other",
            program: ADDER,
            other: "",
            status: 4,
            units: 0,
            written: "dsm: schedule refused: no procs\n",
        },
        Called {
            words: "run prog other",
            program: ADDER,
            other: "step 0\nprocs 2\n",
            status: 4,
            units: 0,
            written: "dsm: schedule refused: no procs\n",
        },
        Called {
            words: "run prog other",
            program: ADDER,
            other: "procs 2\ncrash 0\n",
            status: 4,
            units: 0,
            written: "dsm: schedule refused: not built, line 2\n",
        },
        Called {
            words: "run prog other",
            program: ADDER,
            other: "procs 2\nstep 2\n",
            status: 4,
            units: 0,
            written: "dsm: schedule refused: out of range, line 2\n",
        },
        Called {
            words: "run prog other",
            program: ADDER,
            other: "procs 2\nskip 0\n",
            status: 4,
            units: 0,
            written: "dsm: schedule refused: bad entry, line 2\n",
        },
        Called {
            words: "run prog other",
            program: ADDER,
            other: "procs 2\ndeliver 0 0\n",
            status: 4,
            units: 0,
            written: "dsm: schedule refused: out of range, line 2\n",
        },
        Called {
            words: "run prog other",
            program: ADDER,
            other: "procs 2\nstep 0 400000\nstep 1 100001\n",
            status: 4,
            units: 0,
            written: "dsm: schedule refused: too many units, 500001\n",
        },
    ];
    are_right(&rt, rt.alloc(), TABLE)
}

/// So many times a text, between two others.
fn repeated(
    alloc: Global,
    before: &str,
    text: &str,
    times: usize,
    behind: &str,
) -> Result<String, AllocError> {
    let mut out = String::from_str(alloc, before)?;
    for _ in 0..times {
        out.push_str(text)?;
    }
    out.push_str(behind)?;
    Ok(out)
}

/// The status of a run of this program by this schedule.
fn status_of(alloc: Global, program: &str, schedule: &str) -> Result<u8, Fail> {
    let mut files = files(alloc, program.as_bytes(), schedule.as_bytes())?;
    let mut sink = MemSink::new(alloc, 4096);
    Ok(
        call(alloc, "run prog other", &mut files, &mut sink)?
            .status
            .number(),
    )
}

/// What stands before a body that uses `x`.
const HEAD: &str = "shared int x;\nlock_t L;\nbind(L, x, 0, 1);\nint main(int me, int n) {\n";

#[test]
fn programs_at_the_limits_are_run_or_refused(rt: HostRuntime) -> Result<(), Fail> {
    const TABLE: &[(&str, usize, u8)] = &[
        ("x = 1;", 1, 1),
        ("while (1) x = 1;", 1, 1),
        ("acquire(x);", 1, 3),
        ("x = 9223372036854775808;", 1, 3),
        ("print(1, 2, 3, 4, 5, 6, 7, 8, 9);", 1, 3),
        // 65,512 and 65,540 tokens.
        ("x=1;", 16370, 1),
        ("x=1;", 16377, 3),
        // More than 262,144 bytes.
        ("x=1;    ", 32768, 3),
    ];
    for &(text, times, wanted) in TABLE {
        let program = repeated(rt.alloc(), HEAD, text, times, "}\n")?;
        let found = status_of(rt.alloc(), program.as_str(), "procs 2\nstep 0\nstep 1\n")?;
        assert_eq!(rt; found, wanted, "{text}");
    }
    Ok(())
}
