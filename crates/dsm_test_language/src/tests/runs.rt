//! Turns of programs over one memory.

use crate::tests::checked::program;
use dsm_base::Proc;
use dsm_check::fit;
use dsm_plain::{Picked, Plain};
use std::alloc::Global;
use std::test::Fail;

/// What picks of a program on three processors answer, one after the other.
pub fn picked(alloc: Global, text: &str, picks: &[u8]) -> Result<Vec<Picked>, Fail> {
    let checked = program(alloc, text)?;
    fit(&checked, 3)?;
    let mut machine = Plain::new(alloc, &checked, 3)?;
    let mut answers = Vec::new(alloc);
    for pick in picks {
        answers.push(machine.pick(Proc(*pick % 3))?)?;
    }
    Ok(answers)
}
