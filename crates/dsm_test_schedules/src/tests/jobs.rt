//! The units of jobs.

use dsm_base::{Act, Proc};
use dsm_load::generate;
use std::test::Fail;

const A: Proc = Proc(0);

const B: Proc = Proc(1);

const C: Proc = Proc(2);

const D: Proc = Proc(3);

#[test]
fn jobs_are_drawn_from_their_numbers(rt: HostRuntime) -> Result<(), Fail> {
    // Around the crash, the restart and the end; the draws were made by long arithmetic elsewhere.
    const TABLE: &[(u32, &[(u32, Act)])] = &[
        (
            7,
            &[
                (0, Act::Ckpt(B)),
                (1, Act::Block(D)),
                (2, Act::Step(D)),
                (4, Act::Deliver(C, B)),
                (19_999, Act::Step(C)),
                (20_000, Act::Crash(D)),
                (20_001, Act::Deliver(B, A)),
                (20_050, Act::Step(A)),
                (20_051, Act::Restart(D)),
                (20_052, Act::Step(A)),
                (40_001, Act::Step(C)),
                (40_002, Act::Step(A)),
                (40_003, Act::Deliver(A, B)),
                (200_001, Act::Deliver(D, C)),
            ],
        ),
        (
            0,
            &[
                (0, Act::Block(D)),
                (1, Act::Deliver(A, C)),
                (20_000, Act::Crash(A)),
                (20_051, Act::Restart(A)),
                (40_001, Act::Block(A)),
            ],
        ),
        (
            999_999,
            &[
                (0, Act::Step(B)),
                (5, Act::Ckpt(A)),
                (20_000, Act::Crash(D)),
                (20_051, Act::Restart(D)),
                (40_001, Act::Deliver(D, C)),
            ],
        ),
    ];
    for &(seed, units) in TABLE {
        let job = generate(rt.alloc(), seed)?;
        assert_eq!(rt; job.units(), 200_002);
        for &(index, unit) in units {
            assert_eq!(rt; job.act(index), Some(unit), "{seed}, unit {index}");
        }
        assert_eq!(rt; job.act(200_002), None);
    }
    Ok(())
}
