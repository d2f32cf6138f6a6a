//! The programs that texts are.

ghost use Rattle.dsm_top.specs.Prepared.{GivesProgram};

use dsm_check::{Checked, check};
use dsm_parse::parse;
use dsm_syntax::{ProgErr, lex};
use std::alloc::Global;

/// Reads a program of the whole language. Refused where it has no tokens, where they spell no tree, or
/// where a rule refuses the tree; `Memory` for want of memory.
pub(crate) fn read_checked(alloc: Global, text: &[u8]) -> Result<Checked, ProgErr>
    ensures { GivesProgram text.now result }
{
    let tokens = lex(alloc, text)?;
    let tree = parse(alloc, &tokens)?;
    check(alloc, &tree)
}
