//! What stands in parentheses behind the first word of a statement.

ghost use Rattle.std.specs.Prelude.{◌≡◌, ◌<◌, ◌^◌, false};
ghost use Rattle.dsm_syntax.specs.Views.{view, view_start, option_view};
ghost use Rattle.dsm_syntax.specs.Lexemes.{is_placed_sign};
ghost use Rattle.dsm_syntax.specs.Gives.{Gives};
ghost use Rattle.dsm_laws_grammar.specs.Expressions.{expression};
ghost use Rattle.dsm_laws_grammar.specs.Statements as reader;
ghost use Rattle.dsm_parse.specs.Heads.{view_head};

use crate::expression::expression;
use crate::variable::variables;
use dsm_syntax::{Cursor, Expression, ForStart, Refusal, Sign, Word};
use std::alloc::Global;

/// What stands in the parentheses of a `for`.
#[derive(Drop)]
pub struct ForHead {
    pub start: ForStart,
    pub test: Option<Expression>,
    pub step: Option<Expression>,
}

/// Reads an expression, or none where this sign comes next.
pub fn unless_sign(
    alloc: Global,
    cursor: &mut Cursor<'_>,
    most: u32,
    sign: Sign,
) -> Result<Option<Expression>, Refusal>
    requires depth { most < 2 ^ 28 }
    requires plain { is_placed_sign sign ≡ false }
    ensures { Gives (option_view view) (reader.unless_sign sign (expression most) cursor.old)
        result cursor.new }
{
    if cursor.is_sign(sign) {
        return Ok(None);
    }
    Ok(Some(expression(alloc, cursor, most)?.tree))
}

/// Reads a condition in parentheses.
pub fn test(alloc: Global, cursor: &mut Cursor<'_>, most: u32) -> Result<Expression, Refusal>
    requires { most < 2 ^ 28 }
    ensures { Gives view (reader.test most cursor.old) result cursor.new }
{
    cursor.expect(Sign::ParenOpen)?;
    let test = expression(alloc, cursor, most)?.tree;
    cursor.expect(Sign::ParenClose)?;
    Ok(test)
}

/// Reads what stands first in the head of a `for`.
fn start(alloc: Global, cursor: &mut Cursor<'_>, most: u32) -> Result<ForStart, Refusal>
    requires { most < 2 ^ 28 }
    ensures { Gives view_start (reader.start most cursor.old) result cursor.new }
{
    if cursor.is_sign(Sign::Semicolon) {
        return Ok(ForStart::Nothing);
    }
    if cursor.is_word(Word::Int) {
        return Ok(ForStart::Variables(variables(alloc, cursor, most)?));
    }
    Ok(ForStart::Expression(expression(alloc, cursor, most)?.tree))
}

/// Reads the parentheses of a `for`, and what stands in them.
pub fn for_head(alloc: Global, cursor: &mut Cursor<'_>, most: u32) -> Result<ForHead, Refusal>
    requires { most < 2 ^ 28 }
    ensures { Gives view_head (reader.head most cursor.old) result cursor.new }
{
    cursor.expect(Sign::ParenOpen)?;
    let start = start(alloc, cursor, most)?;
    cursor.expect(Sign::Semicolon)?;
    let test = unless_sign(alloc, cursor, most, Sign::Semicolon)?;
    cursor.expect(Sign::Semicolon)?;
    let step = unless_sign(alloc, cursor, most, Sign::ParenClose)?;
    cursor.expect(Sign::ParenClose)?;
    Ok(ForHead { start, test, step })
}
