//! Programs of jobs over one memory.

use dsm_base::{Label, Proc};
use dsm_check::{check, fit};
use dsm_load::load_program;
use dsm_parse::parse;
use dsm_plain::{Picked, Plain};
use dsm_syntax::lex;
use std::alloc::Global;
use std::test::Fail;

/// The lines of a program on four processors that make their turns one after the other.
fn lines(alloc: Global, text: &[u8]) -> Result<Vec<u8>, Fail> {
    let tokens = lex(alloc, text)?;
    let tree = parse(alloc, &tokens)?;
    let checked = check(alloc, &tree)?;
    fit(&checked, 4)?;
    let mut machine = Plain::new(alloc, &checked, 4)?;
    let mut lines = Vec::new(alloc);
    for pick in 0..100_000u32 {
        if let Picked::Did(Label::Line(line)) = machine.pick(Proc((pick % 4) as u8))? {
            lines.extend_from_slice(line.as_slice())?;
            lines.push(b'\n')?;
        }
    }
    Ok(lines)
}

#[test]
fn money_is_moved_and_none_is_lost(rt: HostRuntime) -> Result<(), Fail> {
    const TABLE: &[(u32, &str)] = &[
        (7, "total 64000\nmoved 977\n"),
        (0, "total 64000\nmoved 990\n"),
        (999_999, "total 64000\nmoved 990\n"),
    ];
    for &(seed, printed) in TABLE {
        let mut text = Vec::new(rt.alloc());
        load_program(rt.alloc(), seed, &mut text)?;
        assert_eq!(rt;
            lines(rt.alloc(), &text)?.as_slice(),
            printed.as_bytes(),
            "{seed}"
        );
    }
    Ok(())
}
