//! Statements with no statement in them.

ghost use Rattle.std.specs.Prelude.{◌<◌, ◌^◌};
ghost use Rattle.dsm_syntax.specs.Views.{view_place, view_statement};
ghost use Rattle.dsm_syntax.specs.Gives.{Gives};
ghost use Rattle.dsm_syntax.specs.Reading.{ok};
ghost use Rattle.dsm_laws_grammar.specs.Statements as reader;

use crate::expression::{expression, place};
use crate::head::unless_sign;
use crate::print::parts;
use crate::variable::variables;
use dsm_syntax::{Cursor, Name, Place, Refusal, Sign, Statement};
use std::alloc::Global;

/// Passes over the first word of a statement that has something below it.
pub fn deeper(cursor: &mut Cursor<'_>, below: u32) -> Result<(), Refusal>
    ensures { Gives (λ done. done) (reader.deeper below (ok tt) cursor.old) result cursor.new }
{
    if below == 0 {
        return Err(Refusal::TooHigh);
    }
    cursor.skip();
    Ok(())
}

/// Reads a word, and the place of a lock.
pub fn lock(alloc: Global, cursor: &mut Cursor<'_>, below: u32) -> Result<Place, Refusal>
    requires { below < 2 ^ 28 }
    ensures { Gives view_place (reader.lock below cursor.old) result cursor.new }
{
    deeper(cursor, below)?;
    cursor.expect(Sign::ParenOpen)?;
    let place = place(alloc, cursor, below)?.tree;
    cursor.expect(Sign::ParenClose)?;
    cursor.expect(Sign::Semicolon)?;
    Ok(place)
}

/// Reads a word, and the name of a barrier.
pub fn barrier(alloc: Global, cursor: &mut Cursor<'_>, below: u32) -> Result<Name, Refusal>
    ensures { Gives (λ name. name) (reader.barrier below cursor.old) result cursor.new }
{
    deeper(cursor, below)?;
    cursor.expect(Sign::ParenOpen)?;
    let name = cursor.name(alloc)?;
    cursor.expect(Sign::ParenClose)?;
    cursor.expect(Sign::Semicolon)?;
    Ok(name)
}

/// Reads what is behind `print`.
pub fn print(alloc: Global, cursor: &mut Cursor<'_>, below: u32) -> Result<Statement, Refusal>
    requires { below < 2 ^ 28 }
    ensures { Gives view_statement (reader.print below cursor.old) result cursor.new }
{
    cursor.expect(Sign::ParenOpen)?;
    let parts = parts(alloc, cursor, below)?;
    cursor.expect(Sign::ParenClose)?;
    cursor.expect(Sign::Semicolon)?;
    Ok(Statement::Print(parts))
}

/// Reads variables, and a semicolon.
pub fn declaration(alloc: Global, cursor: &mut Cursor<'_>, below: u32) -> Result<Statement, Refusal>
    requires { below < 2 ^ 28 }
    ensures { Gives view_statement (reader.declaration below cursor.old) result cursor.new }
{
    let all = variables(alloc, cursor, below)?;
    cursor.expect(Sign::Semicolon)?;
    Ok(Statement::Variables(all))
}

/// Reads an expression, and a semicolon.
pub fn expression_statement(
    alloc: Global,
    cursor: &mut Cursor<'_>,
    below: u32,
) -> Result<Statement, Refusal>
    requires { below < 2 ^ 28 }
    ensures { Gives view_statement (reader.expression_statement below cursor.old)
        result cursor.new }
{
    let value = expression(alloc, cursor, below)?.tree;
    cursor.expect(Sign::Semicolon)?;
    Ok(Statement::Expression(value))
}

/// Reads what is behind a `return` of this line.
pub fn return_at(
    alloc: Global,
    cursor: &mut Cursor<'_>,
    below: u32,
    line: u32,
) -> Result<Statement, Refusal>
    requires { below < 2 ^ 28 }
    ensures { Gives view_statement (reader.return_at below line cursor.old) result cursor.new }
{
    let value = unless_sign(alloc, cursor, below, Sign::Semicolon)?;
    cursor.expect(Sign::Semicolon)?;
    Ok(Statement::Return { line, value })
}
