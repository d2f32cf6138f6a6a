//! Declarations of variables.

ghost use Rattle.std.specs.Prelude.{◌≡◌, ◌≤◌, ◌<◌, ◌^◌, map};
ghost use Rattle.dsm_syntax.specs.Views.{option_view, view_initial, view_variable};
ghost use Rattle.dsm_syntax.specs.Gives.{Gives};
ghost use Rattle.dsm_syntax.specs.Reading.{look, list_of};
ghost use Rattle.dsm_laws_grammar.specs.Statements as reader;

use crate::expression::expression;
use dsm_syntax::{Cursor, Initial, Refusal, Sign, Variable, Word};
use std::alloc::Global;

/// The line of a `=` that comes next.
fn assign_line(cursor: &Cursor<'_>) -> Option<u32>
    ensures { result ≡ reader.assign_line (look cursor.now) }
{
    match cursor.placed_sign() {
        Some((Sign::Assign, line)) => Some(line),
        _ => None,
    }
}

/// Reads what a variable begins with, where a `=` comes next.
fn initial(alloc: Global, cursor: &mut Cursor<'_>, most: u32) -> Result<Option<Initial>, Refusal>
    requires { most < 2 ^ 28 }
    ensures { Gives (option_view view_initial) (reader.initial most cursor.old) result cursor.new }
{
    let Some(line) = assign_line(cursor) else {
        return Ok(None);
    };
    cursor.skip();
    let value = expression(alloc, cursor, most)?.tree;
    Ok(Some(Initial { line, value }))
}

/// Reads a name, and what it begins with.
fn variable(alloc: Global, cursor: &mut Cursor<'_>, most: u32) -> Result<Variable, Refusal>
    requires { most < 2 ^ 28 }
    ensures { Gives view_variable (reader.variable most cursor.old) result cursor.new }
{
    let name = cursor.name(alloc)?;
    let initial = initial(alloc, cursor, most)?;
    Ok(Variable { name, initial })
}

/// Reads variables parted by commas.
fn list(alloc: Global, cursor: &mut Cursor<'_>, most: u32) -> Result<Vec<Variable>, Refusal>
    requires some { 1 ≤ most }
    requires fits { most < 2 ^ 28 }
    ensures { Gives (λ all. map view_variable all.items)
        (list_of (reader.variable most) cursor.old) result cursor.new }
{
    let mut all = Vec::new(alloc);
    all.push(variable(alloc, cursor, most)?)?;
    while cursor.is_sign(Sign::Comma) {
        cursor.skip();
        all.push(variable(alloc, cursor, most)?)?;
    }
    Ok(all)
}

/// Reads the word `int`, and variables parted by commas.
pub fn variables(
    alloc: Global,
    cursor: &mut Cursor<'_>,
    most: u32,
) -> Result<Vec<Variable>, Refusal>
    requires { most < 2 ^ 28 }
    ensures { Gives (λ all. map view_variable all.items) (reader.variables most cursor.old)
        result cursor.new }
{
    if !cursor.is_word(Word::Int) {
        return Err(Refusal::Unexpected);
    }
    if most == 0 {
        return Err(Refusal::TooHigh);
    }
    cursor.skip();
    list(alloc, cursor, most)
}
