//! The limit of nesting.

use crate::tests::read::refusal;
use crate::tests::texts::repeated;
use std::alloc::Global;
use std::test::Fail;

const TOO_HIGH: &str = "Limit { which: Nesting, count: 65 }";

/// The end of a text of one line.
const UNEXPECTED: &str = "Unexpected { line: 1 }";

/// What a program is refused for that has one function with such a body.
fn body_refusal(alloc: Global, head: &str, inner: &str, end: &str) -> Result<String, Fail> {
    let text = format!(in alloc; "int f() {{{head}{inner}{end}}}")?;
    refusal(alloc, text.as_str())
}

#[test]
fn functions_may_be_64_nodes_high(rt: HostRuntime) -> Result<(), Fail> {
    let alloc = rt.alloc();
    // What stands first, what is repeated, what comes between, what is repeated behind, the rest, and how often at most.
    const TABLE: &[(&str, &str, &str, &str, &str, usize)] = &[
        ("", "{", "", "}", "", 63),
        ("", "while (a) ", ";", "", "", 62),
        ("", "for (;;) ", ";", "", "", 62),
        ("", "if (a) ", ";", "", "", 62),
        ("", "if (a) ; else ", ";", "", "", 62),
        ("", "(", "a", ")", ";", 61),
        ("", "! ", "a", "", ";", 61),
        ("", "a + ", "a", "", ";", 61),
        ("", "a = ", "a", "", ";", 61),
        ("", "a ? a : ", "a", "", ";", 61),
        ("", "a ? ", "a", " : a", ";", 61),
        ("", "f(", "", ")", ";", 61),
        ("", "f(", "a", ")", ";", 61),
        ("", "a[", "a", "]", ";", 61),
        ("", "(", "a[0]", ")", ";", 60),
        ("", "(", "a++", ")", ";", 60),
        ("", "(", "a ? a : b", ")", ";", 60),
        ("return ", "(", "1", ")", ";", 61),
        ("int a = ", "(", "1", ")", ";", 61),
        ("print(\"\", ", "(", "1", ")", ");", 61),
        ("acquire(", "a[", "a", "]", ");", 61),
        ("while ", "(", "1", ")", ";", 62),
    ];
    for &(head, opening, middle, closing, end, most) in TABLE {
        let before = repeated(alloc, opening, most)?;
        let behind = repeated(alloc, closing, most)?;
        let inner = format!(in alloc; "{before}{middle}{behind}")?;
        let found = body_refusal(alloc, head, inner.as_str(), end)?;
        assert_eq!(rt; found.as_str(), "accepted", "{inner}");
        let inner = format!(in alloc; "{opening}{inner}{closing}")?;
        let found = body_refusal(alloc, head, inner.as_str(), end)?;
        assert_eq!(rt; found.as_str(), TOO_HIGH, "{inner}");
    }
    Ok(())
}

#[test]
fn too_high_is_refused_where_it_is_certain(rt: HostRuntime) -> Result<(), Fail> {
    let alloc = rt.alloc();
    // What is repeated, how often, what may come then, and what is too high at its last token.
    const TABLE: &[(&str, usize, &str, &str)] = &[
        ("{", 63, "}", "{"),
        ("{", 63, "}", ";"),
        ("{", 63, "}", "a"),
        ("{", 62, ";", "a"),
        ("{", 62, "{", "1"),
        ("{", 62, "break", "if"),
        ("{", 62, "return", "acquire"),
        ("{", 62, "print(", "int"),
        ("{", 62, "print(\"a\"", "barrier"),
        ("{", 62, "print(\"a\", \"b\"", "print(a"),
        ("while (a) ", 62, ";", "while"),
        ("while (a) ", 62, "{", "for"),
        ("(", 61, "a", "("),
        ("(", 61, "1", "-"),
        ("(", 61, "a", "a["),
        ("(", 61, "a", "f("),
        ("(", 61, "a", "a++"),
        ("(", 61, "a", "a ="),
        ("(", 61, "a", "a ?"),
        ("(", 61, "a", "++"),
        ("! ", 61, "a", "!"),
        ("a + ", 61, "(", "a +"),
        ("a = ", 61, "a", "("),
        ("a ? b : ", 61, "a", "a *"),
    ];
    for &(before, times, allowed, refused) in TABLE {
        let before = repeated(alloc, before, times)?;
        let text = format!(in alloc; "int f() {{{before}{allowed}")?;
        assert_eq!(rt;
            refusal(alloc, text.as_str())?.as_str(),
            UNEXPECTED,
            "{text}"
        );
        let text = format!(in alloc; "int f() {{{before}{refused}")?;
        assert_eq!(rt; refusal(alloc, text.as_str())?.as_str(), TOO_HIGH, "{text}");
    }
    Ok(())
}
