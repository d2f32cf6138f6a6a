//! Statements.

ghost use Rattle.std.specs.Prelude.{◌≡◌, ◌<◌, ◌^◌};
ghost use Rattle.dsm_syntax.specs.Views.{view_statement, view_statements};
ghost use Rattle.dsm_syntax.specs.Gives.{Gives};
ghost use Rattle.dsm_syntax.specs.Reading.{ended_by, tail};
ghost use Rattle.dsm_laws_grammar.specs.Statements as reader;

use crate::head::{for_head, test};
use crate::simple::{barrier, declaration, deeper, expression_statement, lock, print, return_at};
use dsm_syntax::{Cursor, Refusal, Sign, Statement, StatementKind, Word};
use std::alloc::Global;

/// Whether a token comes next that doesn't close the block.
fn goes_on(cursor: &Cursor<'_>) -> bool
    ensures { result ≡ reader.goes_on cursor.now }
{
    !cursor.is_empty() && !cursor.is_sign(Sign::BraceClose)
}

/// Reads statements of at most this height, and the closing brace.
#[cycle(statement)]
fn statements(alloc: Global, cursor: &mut Cursor<'_>, most: u32) -> Result<Vec<Statement>, Refusal>
    requires { most < 2 ^ 28 }
    ensures { Gives (λ all. view_statements all.items)
        (reader.statements (reader.statement most) cursor.old) result cursor.new }
{
    let mut all = Vec::new(alloc);
    while goes_on(cursor) {
        all.push(statement(alloc, cursor, most)?)?;
    }
    cursor.expect(Sign::BraceClose)?;
    Ok(all)
}

/// Reads an `if`, with at most so many levels below it.
#[cycle(statement)]
fn branches(alloc: Global, cursor: &mut Cursor<'_>, below: u32) -> Result<Statement, Refusal>
    requires { below < 2 ^ 28 }
    ensures { Gives view_statement
        (reader.statement_by below (reader.statement below) StatementKind.If cursor.old)
        result cursor.new }
{
    deeper(cursor, below)?;
    let test = test(alloc, cursor, below)?;
    let body = Box::new(alloc, statement(alloc, cursor, below)?)?;
    if !cursor.is_word(Word::Else) {
        return Ok(Statement::If(test, body));
    }
    cursor.skip();
    let other = Box::new(alloc, statement(alloc, cursor, below)?)?;
    Ok(Statement::IfElse(test, body, other))
}

/// Reads a `while`, with at most so many levels below it.
#[cycle(statement)]
fn while_loop(alloc: Global, cursor: &mut Cursor<'_>, below: u32) -> Result<Statement, Refusal>
    requires { below < 2 ^ 28 }
    ensures { Gives view_statement
        (reader.statement_by below (reader.statement below) StatementKind.While cursor.old)
        result cursor.new }
{
    deeper(cursor, below)?;
    let test = test(alloc, cursor, below)?;
    let body = Box::new(alloc, statement(alloc, cursor, below)?)?;
    Ok(Statement::While(test, body))
}

/// Reads a `for`, with at most so many levels below it.
#[cycle(statement)]
fn for_loop(alloc: Global, cursor: &mut Cursor<'_>, below: u32) -> Result<Statement, Refusal>
    requires { below < 2 ^ 28 }
    ensures { Gives view_statement
        (reader.statement_by below (reader.statement below) StatementKind.For cursor.old)
        result cursor.new }
{
    deeper(cursor, below)?;
    let head = for_head(alloc, cursor, below)?;
    let body = Box::new(alloc, statement(alloc, cursor, below)?)?;
    Ok(Statement::For(head.start, head.test, head.step, body))
}

/// Reads a statement of one word, a `break` or a `continue`.
fn jump(cursor: &mut Cursor<'_>, statement: Statement) -> Result<Statement, Refusal>
    ensures { Gives view_statement
        (ended_by Sign.Semicolon (view_statement statement) (tail cursor.old)) result cursor.new }
{
    cursor.skip();
    cursor.expect(Sign::Semicolon)?;
    Ok(statement)
}

/// Reads a statement of this kind, with at most so many levels below it.
#[cycle(statement)]
fn statement_by(
    alloc: Global,
    cursor: &mut Cursor<'_>,
    below: u32,
    kind: StatementKind,
) -> Result<Statement, Refusal>
    requires { below < 2 ^ 28 }
    ensures { Gives view_statement
        (reader.statement_by below (reader.statement below) kind cursor.old) result cursor.new }
{
    match kind {
        StatementKind::Block => {
            cursor.skip();
            Ok(Statement::Block(statements(alloc, cursor, below)?))
        }
        StatementKind::Empty => {
            cursor.skip();
            Ok(Statement::Empty)
        }
        StatementKind::Variables => declaration(alloc, cursor, below),
        StatementKind::If => branches(alloc, cursor, below),
        StatementKind::While => while_loop(alloc, cursor, below),
        StatementKind::For => for_loop(alloc, cursor, below),
        StatementKind::Break { line } => jump(cursor, Statement::Break { line }),
        StatementKind::Continue { line } => jump(cursor, Statement::Continue { line }),
        StatementKind::Return { line } => {
            cursor.skip();
            return_at(alloc, cursor, below, line)
        }
        StatementKind::Acquire => Ok(Statement::Acquire(lock(alloc, cursor, below)?)),
        StatementKind::AcquireShared => Ok(Statement::AcquireShared(lock(alloc, cursor, below)?)),
        StatementKind::Release => Ok(Statement::Release(lock(alloc, cursor, below)?)),
        StatementKind::Barrier => Ok(Statement::Barrier(barrier(alloc, cursor, below)?)),
        StatementKind::Print => {
            cursor.skip();
            print(alloc, cursor, below)
        }
        StatementKind::Expression => expression_statement(alloc, cursor, below),
    }
}

/// Refuses the first token of a statement, which can't have height 0.
fn no_statement(
    alloc: Global,
    cursor: &mut Cursor<'_>,
    kind: StatementKind,
) -> Result<Statement, Refusal>
    ensures { Gives view_statement (reader.no_statement kind cursor.old) result cursor.new }
{
    match kind {
        StatementKind::Expression => expression_statement(alloc, cursor, 0),
        _ => Err(Refusal::TooHigh),
    }
}

/// Reads a statement of at most this height.
#[cycle(statement)]
fn statement(alloc: Global, cursor: &mut Cursor<'_>, most: u32) -> Result<Statement, Refusal>
    requires { most < 2 ^ 28 }
    ensures { Gives view_statement (reader.statement most cursor.old) result cursor.new }
{
    let kind = StatementKind::next(cursor);
    if most == 0 {
        return no_statement(alloc, cursor, kind);
    }
    statement_by(alloc, cursor, most - 1, kind)
}

/// Reads the body of a function, of at most this height.
///
/// `Unexpected` comes for a next token with which no body goes on, and `TooHigh` for one with which
/// only higher ones do; `Memory` comes where memory runs out.
pub fn body(alloc: Global, cursor: &mut Cursor<'_>, most: u32) -> Result<Vec<Statement>, Refusal>
    requires { most < 2 ^ 28 }
    ensures { Gives (λ all. view_statements all.items) (reader.body most cursor.old)
        result cursor.new }
{
    if most == 0 && cursor.is_sign(Sign::BraceOpen) {
        return Err(Refusal::TooHigh);
    }
    cursor.expect(Sign::BraceOpen)?;
    statements(alloc, cursor, most - 1)
}
