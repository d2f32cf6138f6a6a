//! Rules of bindings, and setups.

use crate::tests::checked::{NAMES, NOTHING, answered, program, told};
use dsm_check::{Named, fit};
use std::alloc::Global;
use std::test::Fail;

#[test]
fn bindings(rt: HostRuntime) -> Result<(), Fail> {
    let alloc = rt.alloc();
    const TABLE: &[(&str, &str)] = &[
        (
            "bind(M[0], a, 0, 3);\nbind(M[1], a, 2, 2);",
            "BindOverlap { cell: 3, line: 3 }",
        ),
        ("bind(L, x, 0, 1); bindeach(M, a, 2);", "accepted"),
        (
            "bind(M[1], a, 3, 1); bindeach(M, a, 2);",
            "BindOverlap { cell: 4, line: 2 }",
        ),
        (
            "bind(L, a, 2, 1);\nbind(L, a, 1, 1);\nbind(L, a, 0, 4);",
            "BindOverlap { cell: 2, line: 4 }",
        ),
        (
            "bind(L, a, 0, 2);\nbindb(B, a, 1, 1, 0, 0, 1);",
            "BindOverlap { cell: 2, line: 3 }",
        ),
        (
            "bindb(B, x, 0, 1, 0, 0, 1);\nbind(L, x, 0, 1);",
            "BindOverlap { cell: 0, line: 3 }",
        ),
        ("bind(K, a, 0, 1);", "unknown K 2"),
        ("bindeach(K, a, 1);", "unknown K 2"),
        ("bindb(K, a, 0, 1, 0, 0, 1);", "unknown K 2"),
        ("bindeach(M,\nb, 1);", "unknown b 3"),
        ("bindb(B, b, 0, 1, 0, 0, 1);", "unknown b 2"),
        ("bind(L, b, 0, 1);", "unknown b 2"),
        ("bind(K, b, 0, 1);", "unknown K 2"),
        ("bind(B, b, 0, 1);", "wrong kind B 2"),
        ("bind(L[0], a, 0, 1);", "wrong kind L 2"),
        ("bind(M, a, 0, 1);", "wrong kind M 2"),
        ("bindeach(L, a, 1);", "wrong kind L 2"),
        ("bindb(L, a, 0, 1, 0, 0, 1);", "wrong kind L 2"),
        ("bind(L, p, 0, 1);", "wrong kind p 2"),
        ("bind(L, M, 0, 1);", "wrong kind M 2"),
        ("bind(L, f, 0, 1);", "wrong kind f 2"),
        ("bindeach(M, B, 1);", "wrong kind B 2"),
        ("bindb(B, q, 0, 1, 0, 0, 1);", "wrong kind q 2"),
        ("bind(M[2], a, 0, 1);", "BindRange { line: 2 }"),
        ("bind(L, a, 0, 0);", "BindRange { line: 2 }"),
        ("bind(L, a, 3, 2);", "BindRange { line: 2 }"),
        ("bind(L,\na, 3, 2);", "BindRange { line: 2 }"),
        ("bind(L, a, 3, 1); bind(M[1], a, 0, 3);", "accepted"),
        ("bind(M[2], b, 0, 1);", "unknown b 2"),
        ("bind(L, x, 0, 2);", "BindRange { line: 2 }"),
        (
            "bind(L, a, 9223372036854775807, 9223372036854775807);",
            "BindRange { line: 2 }",
        ),
        ("bindeach(M, a, 3);", "BindRange { line: 2 }"),
        ("bindeach(M, a, 0);", "BindRange { line: 2 }"),
        (
            "bindeach(M, a, 9223372036854775807);",
            "BindRange { line: 2 }",
        ),
        ("bindb(B, a, 0, 0, 0, 0, 1);", "BindRange { line: 2 }"),
        ("bindb(B, a, 3, 2, 0, 0, 1);", "BindRange { line: 2 }"),
        ("bindb(B, a, 0, 1, 0, 0, 0);", "BindRange { line: 2 }"),
        ("bindb(B, a, 0, 1, 0, 2, 2);", "BindRange { line: 2 }"),
        ("bindb(B, a, 0, 1, 1000001, 0, 1);", "BindRange { line: 2 }"),
        ("bindb(B, a, 0, 1, 0, 0, 1000001);", "BindRange { line: 2 }"),
        ("bindb(B, a, 0, 1, 1000000, 999999, 1000000);", "accepted"),
        (
            "bind(L, a, 0, 0);\nbind(K, a, 0, 1);",
            "BindRange { line: 2 }",
        ),
        ("bind(K, a, 0, 1);\nbind(L, a, 0, 0);", "unknown K 2"),
        (
            "bind(L, a, 0, 4);\nbind(L, a, 3, 2);",
            "BindRange { line: 3 }",
        ),
        (
            "bind(L, x, 0, 1);\nbind(L, x, 0, 1);\nbind(K, x, 0, 1);",
            "BindOverlap { cell: 0, line: 3 }",
        ),
        (
            "bind(L, x, 0, 1);\nbind(K, x, 0, 1);\nbind(L, x, 0, 1);",
            "unknown K 3",
        ),
        ("bind(K, a, 0, 1); int x;", "twice x 2"),
        ("bind(K, a, 0, 1); int h() { break; }", "unknown K 2"),
        ("int h() { break; } bind(K, a, 0, 1);", "unknown K 2"),
    ];
    let before = format!(in alloc; "{NAMES}{NOTHING}\n")?;
    answered(&rt, alloc, before.as_str(), "", TABLE)?;
    const WHOLE: &[(&str, &str)] = &[(
        "shared int a[4];\nlock_t L[2];\nbind(L[0], a, 0, 3);\nbind(L[1], a, 2, 2);\n",
        "BindOverlap { cell: 2, line: 4 }",
    )];
    answered(&rt, alloc, "", NOTHING, WHOLE)
}

/// What a program with these bindings is refused for on so many processors, or `fits`.
fn fitting(alloc: Global, bindings: &str, procs: u8) -> Result<String, Fail> {
    let text = format!(in alloc; "{NAMES}{NOTHING}{bindings}")?;
    match fit(&program(alloc, text.as_str())?, procs) {
        Ok(()) => Ok(String::from_str(alloc, "fits")?),
        Err(refused) => Ok(told(alloc, &refused)?),
    }
}

#[test]
fn owners_fit(rt: HostRuntime) -> Result<(), Fail> {
    const TABLE: &[(&str, u8, &str)] = &[
        (
            "bindb(B, a, 0, 1, 3, 0, 1);",
            3,
            "BindOwner { owner: 3, procs: 3 }",
        ),
        ("bindb(B, a, 0, 1, 3, 0, 1);", 4, "fits"),
        (
            "bindb(B, a, 0, 1, 1, 0, 1); bindb(B, a, 1, 1, 9, 0, 1); bindb(B, a, 2, 1, 8, 0, 1);",
            2,
            "BindOwner { owner: 9, procs: 2 }",
        ),
        ("bind(L, a, 0, 4);", 2, "fits"),
    ];
    for &(bindings, procs, wanted) in TABLE {
        let found = fitting(rt.alloc(), bindings, procs)?;
        assert_eq!(rt; found.as_str(), wanted, "{bindings}");
    }
    Ok(())
}

/// Names, and two bindings.
const BOUND: &str =
    "shared int x; shared int a[4]; int p; int q[2]; lock_t L; lock_t M[2]; barrier_t B; \
    int f(int u) { return u; } void g() {} int main(int me, int n) { return 0; } \
    bindeach(M, a, 2); bindb(B, x, 0, 1, 1, 2, 3);";

#[test]
fn a_program_is_set_up(rt: HostRuntime) -> Result<(), Fail> {
    let alloc = rt.alloc();
    let setup = program(alloc, BOUND)?.setup(alloc, 2)?;
    let counts = (setup.procs, setup.locks, setup.bars, setup.cells);
    assert_eq!(rt; counts, (2, 3, 1, 5));
    let pieces = format!(in alloc; "{:?}", setup.bindings.as_slice())?;
    const WANTED: &str =
        "[Piece { object: Lock(Lock(1)), first: Cell(1), count: 2, owner: 0, phase: 0, period: 0 }, \
        Piece { object: Lock(Lock(2)), first: Cell(3), count: 2, owner: 0, phase: 0, period: 0 }, \
        Piece { object: Bar(Bar(0)), first: Cell(0), count: 1, owner: 1, phase: 2, period: 3 }]";
    assert_eq!(rt; pieces.as_str(), WANTED);
    Ok(())
}

#[test]
fn names_of_a_program(rt: HostRuntime) -> Result<(), Fail> {
    let checked = program(rt.alloc(), BOUND)?;
    assert_eq!(rt; checked.main(), 2);
    assert_eq!(rt; checked.private_cells(), 3);
    assert!(rt; checked.names().get(b"M".as_slice()) == Some(Named::Locks(1, Some(2))));
    assert!(rt; checked.names().get(b"me".as_slice()).is_none());
    Ok(())
}
