//! Expressions and places.

ghost use Rattle.std.specs.Prelude.{◌≡◌, ◌+◌, ◌≤◌, ◌<◌, ◌^◌, if◌then◌else◌, map, IfOk, OnOk, OnErr};
ghost use Rattle.dsm_syntax.specs.Tree as tree;
ghost use Rattle.dsm_syntax.specs.Views.{view, view_place};
ghost use Rattle.dsm_syntax.specs.Heights.{height, height_place, height_arguments};
ghost use Rattle.dsm_syntax.specs.Reading.{tail, list_of};
ghost use Rattle.dsm_syntax.specs.Gives.{Gives};
ghost use Rattle.dsm_laws_grammar.specs.Expressions as reader;
ghost use Rattle.dsm_laws_grammar.specs.Expressions.{below, expressions};

use crate::measured::Measured;
use dsm_syntax::{Cursor, Expression, Infix, Lead, Name, Place, Refusal, Sign, level, next_step};
use std::alloc::Global;

/// What may stand where any expression may.
const ANY: u8 = 0;

/// What may stand behind the `:` of a choice.
const CHOICE: u8 = 1;

/// What may stand behind an operator that has one side.
const UNARY: u8 = 12;

/// Reads an expression that has at most so many nodes on a way down. The cursor is left at a token
/// that is refused:
///
/// - `Unexpected` comes for the first token with which no expression goes on.
/// - `TooHigh` comes for the first one with which only higher expressions do.
/// - `Memory` comes where memory runs out.
pub fn expression(
    alloc: Global,
    cursor: &mut Cursor<'_>,
    most: u32,
) -> Result<Measured<Expression>, Refusal>
    ensures read { Gives (λ e. view e.tree) (reader.expression most cursor.old) result cursor.new }
    ensures height { IfOk result (λ e. e.height ≡ height (view e.tree)) }
    ensures low { IfOk result (λ e. e.height ≤ most) }
{
    at_least(alloc, cursor, most, ANY)
}

/// Where not even the least fits.
fn none_fits(begins: bool) -> Refusal
    ensures { result ≡ (if begins then Refusal.TooHigh else Refusal.Unexpected) }
{
    if begins {
        Refusal::TooHigh
    } else {
        Refusal::Unexpected
    }
}

/// Passes over a token that makes a node over what is so high, where at most so many levels may be
/// below a node.
fn rise(cursor: &mut Cursor<'_>, depth: u32, height: u32) -> Result<(), Refusal>
    ensures taken { OnOk result ((height ≤ depth) × (cursor.new ≡ tail cursor.old)) }
    ensures refused { OnErr result ((depth < height) × (cursor.new ≡ cursor.old)) }
    ensures cause { OnErr result (result ≡ Err Refusal.TooHigh) }
{
    if depth < height {
        return Err(Refusal::TooHigh);
    }
    cursor.skip();
    Ok(())
}

/// Reads an expression that binds at least so tightly.
#[cycle(expression)]
fn at_least(
    alloc: Global,
    cursor: &mut Cursor<'_>,
    most: u32,
    least: u8,
) -> Result<Measured<Expression>, Refusal>
    ensures read { Gives (λ e. view e.tree) ((below most).at_least least cursor.old)
        result cursor.new }
    ensures height { IfOk result (λ e. e.height ≡ height (view e.tree)) }
    ensures low { IfOk result (λ e. e.height ≤ most) }
{
    let Some(depth) = most.checked_sub(1) else {
        return Err(none_fits(Lead::next(cursor).is_some()));
    };
    let first = operand(alloc, cursor, depth)?;
    climb(alloc, cursor, depth, least, first)
}

/// Reads a place that has at most so many nodes on a way down, with the refusals of an expression.
#[cycle(expression)]
pub fn place(alloc: Global, cursor: &mut Cursor<'_>, most: u32) -> Result<Measured<Place>, Refusal>
    ensures read { Gives (λ p. view_place p.tree) (reader.place most cursor.old) result cursor.new }
    ensures height { IfOk result (λ p. p.height ≡ height_place (view_place p.tree)) }
    ensures low { IfOk result (λ p. p.height ≤ most) }
{
    let Some(depth) = most.checked_sub(1) else {
        return Err(none_fits(cursor.is_name()));
    };
    let name = cursor.name(alloc)?;
    place_behind(alloc, cursor, depth, name)
}

/// Goes on behind the name that a place begins with.
#[cycle(expression)]
fn place_behind(
    alloc: Global,
    cursor: &mut Cursor<'_>,
    depth: u32,
    name: Name,
) -> Result<Measured<Place>, Refusal>
    requires { depth + 1 < 2 ^ 32 }
    ensures read { Gives (λ p. view_place p.tree)
        (reader.place_behind depth (below depth) name cursor.old) result cursor.new }
    ensures height { IfOk result (λ p. p.height ≡ height_place (view_place p.tree)) }
    ensures low { IfOk result (λ p. p.height ≤ depth + 1) }
{
    if !cursor.is_sign(Sign::BracketOpen) {
        return Ok(Measured {
            tree: Place::Single(name),
            height: 1,
        });
    }
    rise(cursor, depth, 1)?;
    let Measured { tree, height } = at_least(alloc, cursor, depth, ANY)?;
    cursor.expect(Sign::BracketClose)?;
    Ok(Measured {
        tree: Place::Element(name, Box::new(alloc, tree)?),
        height: height + 1,
    })
}

/// Goes on behind a place, where a step may follow.
fn stepped(
    cursor: &mut Cursor<'_>,
    depth: u32,
    place: Measured<Place>,
) -> Result<Measured<Expression>, Refusal>
    requires depth { depth + 1 < 2 ^ 32 }
    requires height { place.height ≡ height_place (view_place place.tree) }
    requires low { place.height ≤ depth + 1 }
    ensures read { Gives (λ e. view e.tree)
        (reader.stepped depth (below depth) (view_place place.tree) cursor.old)
        result cursor.new }
    ensures height { IfOk result (λ e. e.height ≡ height (view e.tree)) }
    ensures low { IfOk result (λ e. e.height ≤ depth + 1) }
{
    let Measured { tree, height } = place;
    let Some((op, line)) = next_step(cursor) else {
        return Ok(Measured {
            tree: Expression::Place(tree),
            height,
        });
    };
    rise(cursor, depth, height)?;
    Ok(Measured {
        tree: Expression::Postfix(tree, op, line),
        height: height + 1,
    })
}

/// Reads what stands between operators that have two sides.
#[cycle(expression)]
fn operand(
    alloc: Global,
    cursor: &mut Cursor<'_>,
    depth: u32,
) -> Result<Measured<Expression>, Refusal>
    requires { depth + 1 < 2 ^ 32 }
    ensures read { Gives (λ e. view e.tree) (reader.operand depth (below depth) cursor.old)
        result cursor.new }
    ensures height { IfOk result (λ e. e.height ≡ height (view e.tree)) }
    ensures low { IfOk result (λ e. e.height ≤ depth + 1) }
{
    match Lead::next(cursor) {
        Lead::Number(number) => {
            cursor.skip();
            Ok(Measured {
                tree: Expression::Number(number),
                height: 1,
            })
        }
        Lead::Name => {
            let name = cursor.name(alloc)?;
            named(alloc, cursor, depth, name)
        }
        Lead::Paren => {
            rise(cursor, depth, 1)?;
            let Measured { tree, height } = at_least(alloc, cursor, depth, ANY)?;
            cursor.expect(Sign::ParenClose)?;
            Ok(Measured {
                tree: Expression::Paren(Box::new(alloc, tree)?),
                height: height + 1,
            })
        }
        Lead::Unary(op, line) => {
            rise(cursor, depth, 1)?;
            let Measured { tree, height } = at_least(alloc, cursor, depth, UNARY)?;
            Ok(Measured {
                tree: Expression::Unary(op, line, Box::new(alloc, tree)?),
                height: height + 1,
            })
        }
        Lead::Step(op, line) => {
            rise(cursor, depth, 1)?;
            let Measured { tree, height } = place(alloc, cursor, depth)?;
            Ok(Measured {
                tree: Expression::Prefix(op, line, tree),
                height: height + 1,
            })
        }
        Lead::Nothing => Err(Refusal::Unexpected),
    }
}

/// A call of a function with these arguments.
fn call(name: Name, list: Vec<Expression>) -> Expression
    ensures { view result ≡ tree.call name (expressions (map view list.items)) }
{
    Expression::Call(name, list)
}

/// Goes on behind a name that an expression begins with.
#[cycle(expression)]
fn named(
    alloc: Global,
    cursor: &mut Cursor<'_>,
    depth: u32,
    name: Name,
) -> Result<Measured<Expression>, Refusal>
    requires { depth + 1 < 2 ^ 32 }
    ensures read { Gives (λ e. view e.tree)
        (reader.named_behind depth (below depth) name cursor.old) result cursor.new }
    ensures height { IfOk result (λ e. e.height ≡ height (view e.tree)) }
    ensures low { IfOk result (λ e. e.height ≤ depth + 1) }
{
    if !cursor.is_sign(Sign::ParenOpen) {
        let place = place_behind(alloc, cursor, depth, name)?;
        return stepped(cursor, depth, place);
    }
    rise(cursor, depth, 1)?;
    if cursor.is_sign(Sign::ParenClose) {
        cursor.skip();
        return Ok(Measured {
            tree: call(name, Vec::new(alloc)),
            height: 2,
        });
    }
    let Measured { tree, height } = arguments(alloc, cursor, depth)?;
    cursor.expect(Sign::ParenClose)?;
    Ok(Measured {
        tree: call(name, tree),
        height: height.max(1) + 1,
    })
}

/// Reads the arguments of a call, of which there is at least one.
#[cycle(expression)]
fn arguments(
    alloc: Global,
    cursor: &mut Cursor<'_>,
    depth: u32,
) -> Result<Measured<Vec<Expression>>, Refusal>
    requires depth { depth + 1 < 2 ^ 32 }
    requires over { 1 ≤ depth }
    ensures read { Gives (λ list. map view list.tree.items)
        (list_of ((below depth).at_least 0) cursor.old) result cursor.new }
    ensures height { IfOk result
        (λ list. list.height ≡ height_arguments (expressions (map view list.tree.items))) }
    ensures low { IfOk result (λ list. list.height ≤ depth) }
{
    let first = at_least(alloc, cursor, depth, ANY)?;
    let mut height = first.height;
    let mut list = Vec::new(alloc);
    list.push(first.tree)?;
    while cursor.is_sign(Sign::Comma) {
        cursor.skip();
        let next = at_least(alloc, cursor, depth, ANY)?;
        height = height.max(next.height);
        list.push(next.tree)?;
    }
    Ok(Measured { tree: list, height })
}

/// Goes on while what comes next binds more tightly.
#[cycle(expression)]
fn climb(
    alloc: Global,
    cursor: &mut Cursor<'_>,
    depth: u32,
    least: u8,
    first: Measured<Expression>,
) -> Result<Measured<Expression>, Refusal>
    requires depth { depth + 1 < 2 ^ 32 }
    requires height { first.height ≡ height (view first.tree) }
    requires low { first.height ≤ depth + 1 }
    ensures read { Gives (λ e. view e.tree)
        (reader.climb depth (below depth) depth least (view first.tree) cursor.old)
        result cursor.new }
    ensures height { IfOk result (λ e. e.height ≡ height (view e.tree)) }
    ensures low { IfOk result (λ e. e.height ≤ depth + 1) }
{
    let mut left = first;
    while let Some((operator, line)) = Infix::next(cursor) {
        if operator.tightness(&left.tree) <= least {
            break;
        }
        rise(cursor, depth, left.height)?;
        left = operation(alloc, cursor, depth, operator, line, left)?;
    }
    Ok(left)
}

/// Goes on behind an operator and what stands before it.
#[cycle(expression)]
fn operation(
    alloc: Global,
    cursor: &mut Cursor<'_>,
    depth: u32,
    operator: Infix,
    line: u32,
    left: Measured<Expression>,
) -> Result<Measured<Expression>, Refusal>
    requires depth { depth + 1 < 2 ^ 32 }
    requires height { left.height ≡ height (view left.tree) }
    requires low { left.height ≤ depth }
    ensures read { Gives (λ e. view e.tree)
        (reader.operation depth (below depth) (Some (operator, line)) (view left.tree) cursor.old)
        result cursor.new }
    ensures height { IfOk result (λ e. e.height ≡ height (view e.tree)) }
    ensures low { IfOk result (λ e. e.height ≤ depth + 1) }
    ensures risen { IfOk result (λ e. left.height + 1 ≤ e.height) }
{
    let Measured { tree, height } = left;
    match operator {
        Infix::Binary(op) => {
            let right = at_least(alloc, cursor, depth, level(op) + 1)?;
            let height = height.max(right.height) + 1;
            let (a, b) = (Box::new(alloc, tree)?, Box::new(alloc, right.tree)?);
            Ok(Measured {
                tree: Expression::Binary(a, op, line, b),
                height,
            })
        }
        Infix::Question => choice(alloc, cursor, depth, line, Measured { tree, height }),
        Infix::Assign(op) => {
            let Expression::Place(place) = tree else {
                return Err(Refusal::Unexpected);
            };
            let right = at_least(alloc, cursor, depth, ANY)?;
            let height = height.max(right.height) + 1;
            Ok(Measured {
                tree: Expression::Assign(place, op, line, Box::new(alloc, right.tree)?),
                height,
            })
        }
    }
}

/// Goes on behind the `?` of a choice.
#[cycle(expression)]
fn choice(
    alloc: Global,
    cursor: &mut Cursor<'_>,
    depth: u32,
    line: u32,
    test: Measured<Expression>,
) -> Result<Measured<Expression>, Refusal>
    requires depth { depth + 1 < 2 ^ 32 }
    requires height { test.height ≡ height (view test.tree) }
    requires low { test.height ≤ depth }
    ensures read { Gives (λ e. view e.tree)
        (reader.operation depth (below depth) (Some (Infix.Question, line)) (view test.tree)
        cursor.old) result cursor.new }
    ensures height { IfOk result (λ e. e.height ≡ height (view e.tree)) }
    ensures low { IfOk result (λ e. e.height ≤ depth + 1) }
    ensures risen { IfOk result (λ e. test.height + 1 ≤ e.height) }
{
    let then = at_least(alloc, cursor, depth, ANY)?;
    cursor.expect(Sign::Colon)?;
    let other = at_least(alloc, cursor, depth, CHOICE)?;
    let height = test.height.max(then.height.max(other.height)) + 1;
    let (a, b) = (Box::new(alloc, then.tree)?, Box::new(alloc, other.tree)?);
    Ok(Measured {
        tree: Expression::Choice(Box::new(alloc, test.tree)?, line, a, b),
        height,
    })
}
