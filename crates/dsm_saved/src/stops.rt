//! At which instructions a thread can stand, and which value decides whether it stops there.

ghost use Rattle.std.specs.Prelude.{◌≡◌, ◌≤◌, true, false, is_none};
ghost use Rattle.dsm_code.specs.Valid.{takes};
ghost use Rattle.dsm_saved.specs.Stops as s;

use dsm_code::{Code, Instr, Row, Target};
use dsm_syntax::{BinaryOp, UnaryOp};
use dsm_values::{binary_value, step_value, unary_value};

/// Whether an operator comes to a fault for some operand.
fn can_fail(op: UnaryOp) -> bool
    ensures { result ≡ s.can_fail op }
{
    matches!(op, UnaryOp::Negate)
}

/// Whether an operator comes to a fault for some operands.
fn can_fail_of_two(op: BinaryOp) -> bool
    ensures { result ≡ s.can_fail_of_two op }
{
    matches!(
        op,
        BinaryOp::Times
            | BinaryOp::Divide
            | BinaryOp::Remainder
            | BinaryOp::Plus
            | BinaryOp::Minus
            | BinaryOp::ShiftLeft
            | BinaryOp::ShiftRight
    )
}

fn is_member(target: Target) -> bool
    ensures { result ≡ s.is_member target }
{
    matches!(target, Target::Member(_))
}

/// Whether an instruction wants something, or stops for a fault, with some operands.
fn may_want(instr: Instr) -> bool
    ensures { result ≡ s.may_want instr }
{
    match instr {
        Instr::Push(_)
        | Instr::Discard
        | Instr::LoadSlot(_, _)
        | Instr::StoreSlot(_)
        | Instr::ToTruth
        | Instr::GoOn(_)
        | Instr::SkipIfZero(_) => false,
        Instr::LoadOwn(target, _, _) | Instr::StoreOwn(target, _) => is_member(target),
        Instr::Unary(op, _) => can_fail(op),
        Instr::Binary(op, _) => can_fail_of_two(op),
        _ => true,
    }
}

/// How far from the end the operand stands that decides whether an instruction stops; 0 where none does.
fn decider(instr: Instr) -> u32
    ensures value { result ≡ s.decider instr }
    ensures few { result ≤ 2 }
{
    match instr {
        Instr::TestIndex(_, _)
        | Instr::LoadOwn(_, _, _)
        | Instr::Unary(_, _)
        | Instr::StepBy(_, _)
        | Instr::Binary(_, _) => 1,
        Instr::StoreOwn(_, _) => 2,
        _ => 0,
    }
}

/// Whether an instruction stops for that operand, above another one.
fn stops(instr: Instr, under: i64, value: i64) -> bool
    ensures { result ≡ s.stops instr under value }
{
    match instr {
        Instr::TestIndex(array, _) => Target::Member(array).number(value).is_none(),
        Instr::LoadOwn(target, _, _) | Instr::StoreOwn(target, _) => {
            target.number(value).is_none()
        }
        Instr::Unary(op, _) => unary_value(op, value).is_err(),
        Instr::StepBy(op, _) => step_value(op, value).is_err(),
        Instr::Binary(op, _) => binary_value(op, under, value).is_err(),
        _ => true,
    }
}

/// The function that an instruction calls.
pub(crate) fn called(instr: Instr) -> Option<u16>
    ensures { result ≡ s.called instr }
{
    match instr {
        Instr::Enter(number, _) => Some(number),
        _ => None,
    }
}

/// Whether a place is one of the innermost function, or the call of a function that waits.
pub(crate) fn is_place(code: &Code, is_last: bool, row: Option<Row>) -> bool
    ensures { result ≡ s.is_place code.now is_last row }
{
    match row {
        None => false,
        Some(row) => {
            if is_last {
                may_want(row.instr) && row.depth <= code.deepest()
            } else {
                called(row.instr).is_some()
            }
        }
    }
}

/// How many operands a function keeps below those that an instruction takes from it.
fn kept_operands(code: &Code, is_last: bool, row: Option<Row>) -> u32
    requires { s.is_place code.now is_last row ≡ true }
    ensures { result ≡ s.kept_operands code.now is_last row }
{
    match row {
        None => 0,
        Some(row) => {
            if is_last {
                row.depth
            } else {
                row.depth.saturating_sub(arguments(code, row.instr))
            }
        }
    }
}

/// How many arguments a call takes.
fn arguments(code: &Code, instr: Instr) -> u32
    requires { is_none (s.called instr) ≡ false }
    ensures { result ≡ takes code.now instr }
{
    match instr {
        Instr::Enter(number, _) => u32::from(code.params(number)),
        _ => unreachable!(),
    }
}

/// How many values a function is saved with at a place.
pub(crate) fn value_count(code: &Code, is_last: bool, number: u16, row: Option<Row>) -> u64
    requires { s.is_place code.now is_last row ≡ true }
    ensures { result ≡ s.value_count code.now is_last number row }
{
    u64::from(code.slots(number)) + u64::from(kept_operands(code, is_last, row))
}

/// Whether a value of so many is such that the instruction stops, where it decides.
pub(crate) fn is_value(
    row: Option<Row>,
    count: u32,
    number: u32,
    last: Option<i64>,
    value: i64,
) -> bool
    ensures { result ≡ s.is_value row count number last value }
{
    match row {
        None => true,
        Some(row) => {
            let place = u64::from(number) + u64::from(decider(row.instr));
            place != u64::from(count) || stops(row.instr, last.unwrap_or(0), value)
        }
    }
}
