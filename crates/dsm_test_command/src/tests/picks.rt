//! Runs over one memory.

use crate::tests::called::{Called, are_right};
use crate::tests::programs::{COUNTER, DEEP, RING, SUM, UNBOUND};
use std::test::Fail;

#[test]
fn runs_over_one_memory_print_their_lines(rt: HostRuntime) -> Result<(), Fail> {
    const TABLE: &[Called] = &[
        Called {
            words: "plain prog other",
            program: COUNTER,
            other: "procs 2\nall 40\n",
            status: 0,
            units: 80,
            written: "P0: x=1\nP1: x=2\nP0: x=3\nP1: x=4\n",
        },
        Called {
            words: "plain prog other",
            program: COUNTER,
            other: "procs 2\n",
            status: 2,
            units: 0,
            written: "",
        },
        Called {
            words: "plain prog other",
            program: COUNTER,
            other: "procs 2\npick 0 2\npick 1 5\npick 0 5\npick 1 5\n",
            status: 2,
            units: 17,
            written: "P0: x=1\nP1: x=2\n",
        },
        Called {
            words: "plain prog other",
            program: SUM,
            other: "procs 2\nall 2\n",
            status: 1,
            units: 4,
            written: "P0: 9223372036854775807\nP1: fault overflow line 3\n",
        },
        Called {
            words: "plain prog other",
            program: UNBOUND,
            other: "procs 2\nall 10\n",
            status: 1,
            units: 20,
            written: "P0: fault unbound line 5\nP1: fault unbound line 7\n",
        },
        Called {
            words: "plain prog other",
            program: RING,
            other: "procs 3\nall 10\n",
            status: 0,
            units: 30,
            written: "P0: 30\nP1: 10\nP2: 20\n",
        },
        Called {
            words: "plain prog other",
            program: RING,
            other: "procs 3\npick 0 9\npick 1 9\n",
            status: 2,
            units: 18,
            written: "",
        },
        Called {
            words: "plain prog other",
            program: DEEP,
            other: "procs 2\npick 0 256\n",
            status: 2,
            units: 256,
            written: "P0: fault depth line 1\n",
        },
        Called {
            words: "plain prog other",
            program: DEEP,
            other: "procs 2\npick 0 255\n",
            status: 2,
            units: 255,
            written: "",
        },
    ];
    are_right(&rt, rt.alloc(), TABLE)
}
