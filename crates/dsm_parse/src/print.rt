//! Parts of a print.

ghost use Rattle.std.specs.Prelude.{◌<◌, ◌^◌, map};
ghost use Rattle.dsm_syntax.specs.Views.{view_part};
ghost use Rattle.dsm_syntax.specs.Gives.{Gives};
ghost use Rattle.dsm_syntax.specs.Reading.{list_of};
ghost use Rattle.dsm_laws_grammar.specs.Statements as reader;

use crate::expression::expression;
use dsm_syntax::{Cursor, Part, Refusal, Sign};
use std::alloc::Global;

/// Reads a string or an expression.
fn part(alloc: Global, cursor: &mut Cursor<'_>, most: u32) -> Result<Part, Refusal>
    requires { most < 2 ^ 28 }
    ensures { Gives view_part (reader.part most cursor.old) result cursor.new }
{
    if cursor.is_string() {
        return Ok(Part::Text(cursor.string(alloc)?));
    }
    Ok(Part::Value(expression(alloc, cursor, most)?.tree))
}

/// Reads parts of a print, parted by commas.
pub fn parts(alloc: Global, cursor: &mut Cursor<'_>, most: u32) -> Result<Vec<Part>, Refusal>
    requires { most < 2 ^ 28 }
    ensures { Gives (λ all. map view_part all.items) (list_of (reader.part most) cursor.old)
        result cursor.new }
{
    let mut all = Vec::new(alloc);
    all.push(part(alloc, cursor, most)?)?;
    while cursor.is_sign(Sign::Comma) {
        cursor.skip();
        all.push(part(alloc, cursor, most)?)?;
    }
    Ok(all)
}
