//! Rules of what stands at file scope.

use crate::tests::checked::{NOTHING, answer, answered};
use std::alloc::{AllocError, Global};
use std::process::Abort;
use std::test::Fail;

#[test]
fn names_of_a_file(rt: HostRuntime) -> Result<(), Fail> {
    let alloc = rt.alloc();
    const TABLE: &[(&str, &str)] = &[
        (
            "shared int a, b[4]; int c[3], d; lock_t L[4], M; barrier_t B, C; bind(M, a, 0, 1); \
            bindeach(L, b, 1); bindb(B, a, 0, 1, 1, 2, 3); void f(void) {;} int g(int a) {;;} \
            int h() {} int main(int me, int n) {}",
            "BindOverlap { cell: 0, line: 1 }",
        ),
        (
            "shared int a, b[4]; int c[3], d; lock_t L[4], M; barrier_t B, C; bind(M, a, 0, 1); \
            bindeach(L, b, 1); void f(void) {;} int g(int a) {;;} int main(int me, int n) {}",
            "accepted",
        ),
        ("int a; int a;", "twice a 1"),
        ("int a, b,\na;", "twice a 2"),
        ("lock_t a;\nbarrier_t a;", "twice a 2"),
        ("int f() {}\n\nvoid f() {}", "twice f 3"),
        ("int a[0];", "wrong kind a 1"),
        ("shared int b, a[0];", "wrong kind a 1"),
        ("lock_t L[0];", "wrong kind L 1"),
        ("int a; int a[0];", "twice a 1"),
        ("int a[0]; int a;", "wrong kind a 1"),
        ("lock_t L[257];", "Limit { which: Locks, count: 257 }"),
        (
            "lock_t L[200], M[57];",
            "Limit { which: Locks, count: 257 }",
        ),
        (
            "shared int a[65537];",
            "Limit { which: SharedCells, count: 65537 }",
        ),
        (
            "int a[16385];",
            "Limit { which: PrivateCells, count: 16385 }",
        ),
        (
            "int a[16384], b;",
            "Limit { which: PrivateCells, count: 16385 }",
        ),
        (
            "shared int a[9223372036854775807];",
            "Limit { which: SharedCells, count: 4294967295 }",
        ),
        (
            "int a[16385], b[0];",
            "Limit { which: PrivateCells, count: 16385 }",
        ),
        ("int a[16384], b[0];", "wrong kind b 1"),
        ("lock_t L[256]; lock_t L;", "twice L 1"),
        ("int b[0], a[16385];", "wrong kind b 1"),
        ("", "NoMain"),
        ("int main;", "NoMain"),
        ("int main() {}", "NoMain"),
        ("int main(int me) {}", "NoMain"),
        ("int main(int a, int b, int c) {}", "NoMain"),
        ("void main(int me, int n) {}", "NoMain"),
        ("int a; int b; int a; lock_t L[257];", "twice a 1"),
        (
            "lock_t L[257]; int a; int a;",
            "Limit { which: Locks, count: 257 }",
        ),
        ("int main; int main(int me, int n) {}", "twice main 1"),
        ("int f() { break; }", "NoMain"),
        ("int f() { break; } int a; int a;", "twice a 1"),
        ("bind(L, a, 0, 1); int a[0];", "wrong kind a 1"),
        ("bind(L, a, 0, 1);", "NoMain"),
    ];
    answered(&rt, alloc, "", "", TABLE)
}

/// So many functions.
fn functions(alloc: Global, count: u32) -> Result<String, AllocError> {
    let mut text = String::new(alloc);
    for number in 0..count {
        text.push_str(format!(in alloc; "void f{number}() {{}}")?.as_str())?;
    }
    Ok(text)
}

/// A function with so many parameters.
fn with_params(alloc: Global, count: u32) -> Result<String, AllocError> {
    let mut text = String::from_str(alloc, "int f(int p0")?;
    for number in 1..count {
        text.push_str(format!(in alloc; ", int p{number}")?.as_str())?;
    }
    text.push_str(") {}")?;
    Ok(text)
}

/// So many times a barrier.
fn barriers(alloc: Global, count: u32) -> Result<String, AllocError> {
    let mut text = String::new(alloc);
    for number in 0..count {
        text.push_str(format!(in alloc; "barrier_t b{number};")?.as_str())?;
    }
    Ok(text)
}

/// A text is refused for this, with the program that does nothing behind it.
fn is_answered(rt: &impl Abort, alloc: Global, text: &str, wanted: &str) -> Result<(), Fail> {
    let text = format!(in alloc; "{text}{NOTHING}")?;
    assert_eq!(rt; answer(alloc, text.as_str())?.as_str(), wanted);
    Ok(())
}

#[test]
fn cells_and_locks_have_limits(rt: HostRuntime) -> Result<(), Fail> {
    const MOST: &[(&str, &str)] = &[
        ("lock_t L[256];", "accepted"),
        ("shared int a[65536];", "accepted"),
        ("int a[16384];", "accepted"),
    ];
    answered(&rt, rt.alloc(), "", NOTHING, MOST)
}

#[test]
fn barriers_have_a_limit(rt: HostRuntime) -> Result<(), Fail> {
    const TABLE: &[(u32, &str)] = &[
        (64, "accepted"),
        (65, "Limit { which: Barriers, count: 65 }"),
    ];
    for &(count, wanted) in TABLE {
        is_answered(
            &rt,
            rt.alloc(),
            barriers(rt.alloc(), count)?.as_str(),
            wanted,
        )?;
    }
    Ok(())
}

#[test]
fn functions_have_a_limit(rt: HostRuntime) -> Result<(), Fail> {
    const TABLE: &[(u32, &str)] = &[
        (255, "accepted"),
        (256, "Limit { which: Functions, count: 257 }"),
    ];
    for &(count, wanted) in TABLE {
        is_answered(
            &rt,
            rt.alloc(),
            functions(rt.alloc(), count)?.as_str(),
            wanted,
        )?;
    }
    Ok(())
}

#[test]
fn parameters_have_a_limit(rt: HostRuntime) -> Result<(), Fail> {
    const TABLE: &[(&str, u32, &str)] = &[
        ("", 16, "accepted"),
        ("", 17, "Limit { which: Params, count: 17 }"),
        ("int f; ", 17, "twice f 1"),
    ];
    for &(before, count, wanted) in TABLE {
        let text = format!(in rt.alloc(); "{before}{}", with_params(rt.alloc(), count)?)?;
        is_answered(&rt, rt.alloc(), text.as_str(), wanted)?;
    }
    Ok(())
}
