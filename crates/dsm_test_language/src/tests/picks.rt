//! What picks of programs answer.

ghost use Rattle.std.specs.Prelude.{◌≤◌, length};

use crate::tests::runs::picked;
use dsm_base::Mode;
use dsm_plain::Picked;
use std::alloc::{AllocError, Global};
use std::test::Fail;

/// What a pick tells, in a few letters.
fn told(alloc: Global, picked: &Picked) -> Result<String, AllocError> {
    let mut text = String::new(alloc);
    match picked {
        Picked::Did(_) => text.push_str("did ")?,
        Picked::Blocked(holders) => {
            for holder in holders.as_slice() {
                let mode = match holder.mode {
                    Mode::Shared => "s",
                    Mode::Excl => "x",
                };
                text.push_str(mode)?;
                text.push_str(format!(in alloc; "{} ", holder.proc.0)?.as_str())?;
            }
        }
        Picked::Missing(procs) => {
            for proc in procs.as_slice() {
                text.push_str(format!(in alloc; "m{} ", proc.0)?.as_str())?;
            }
        }
        Picked::Over => text.push_str("over ")?,
    }
    Ok(text)
}

/// What picks of a program on three processors tell, one after the other.
fn answers(alloc: Global, text: &str, picks: &[u8]) -> Result<String, Fail>
    requires { length picks.now ≤ 1000 }
{
    let mut answers = String::new(alloc);
    for answer in &picked(alloc, text, picks)? {
        answers.push_str(told(alloc, answer)?.as_str())?;
    }
    Ok(answers)
}

#[test]
fn picks(rt: HostRuntime) -> Result<(), Fail> {
    let alloc = rt.alloc();
    const SHARED: &str =
        "lock_t L; int main(int me, int n) { if (me) acquire_shared(L); else acquire(L); }";
    const HELD: &str = "lock_t L; int main(int me, int n) { acquire(L); }";
    const MEET: &str = "barrier_t B; int main(int me, int n) { barrier(B); }";
    const TABLE: &[(&str, &[u8], &str)] = &[
        (
            SHARED,
            &[1, 1, 2, 2, 0, 0, 0],
            "did did did did did s1 s2 s1 s2 ",
        ),
        (SHARED, &[0, 0, 1, 1, 2, 2], "did did did x0 did x0 "),
        (
            HELD,
            &[0, 0, 0, 0, 1, 1, 2, 2],
            "did did did over did x0 did x0 ",
        ),
        (
            MEET,
            &[1, 1, 2, 1, 0, 1, 1, 1],
            "did m0 m2 did m0 did did did over ",
        ),
        (MEET, &[0, 0, 2, 0, 0], "did m1 m2 did m1 m1 "),
    ];
    for &(text, picks, wanted) in TABLE {
        assert_eq!(rt; answers(alloc, text, picks)?.as_str(), wanted, "{text}");
    }
    Ok(())
}
