//! What operators come to.

ghost use Rattle.std.specs.Prelude.{◌≡◌, ◌<◌, ◌^◌, pos, ◌*ℤ◌, FitsSigned};
ghost use Rattle.std.specs.Int.{w64};
ghost use Rattle.std.specs.Option.{SomeIff};
ghost use Rattle.dsm_syntax.specs.declared.tree.BinaryOp.{BinaryOp};
ghost use Rattle.dsm_values.specs.Values;

use dsm_base::Fault;
use dsm_syntax::{BinaryOp, StepOp, UnaryOp};

/// The value of an operator before its operand, or the fault.
pub fn unary_value(op: UnaryOp, a: i64) -> Result<i64, Fault>
    ensures { result ≡ Values.unary_value op a }
{
    match op {
        UnaryOp::Negate => a.checked_neg().ok_or(Fault::Overflow),
        UnaryOp::Plus => Ok(a),
        UnaryOp::Not => Ok(i64::from(a == 0)),
        UnaryOp::Complement => Ok(!a),
    }
}

/// The value after a step by one, or the fault.
pub fn step_value(op: StepOp, a: i64) -> Result<i64, Fault>
    ensures { result ≡ Values.step_value op a }
{
    match op {
        StepOp::Increment => a.checked_add(1).ok_or(Fault::Overflow),
        StepOp::Decrement => a.checked_sub(1).ok_or(Fault::Overflow),
    }
}

/// The value of an operator between its operands, or the fault.
pub fn binary_value(op: BinaryOp, a: i64, b: i64) -> Result<i64, Fault>
    ensures { result ≡ Values.binary_value op a b }
{
    match op {
        BinaryOp::Times => a.checked_mul(b).ok_or(Fault::Overflow),
        BinaryOp::Divide => quotient(a, b),
        BinaryOp::Remainder => remainder(a, b),
        BinaryOp::Plus => a.checked_add(b).ok_or(Fault::Overflow),
        BinaryOp::Minus => a.checked_sub(b).ok_or(Fault::Overflow),
        BinaryOp::ShiftLeft => shifted_left(a, b),
        BinaryOp::ShiftRight => shifted_right(a, b),
        BinaryOp::Less => Ok(i64::from(a < b)),
        BinaryOp::LessEqual => Ok(i64::from(a <= b)),
        BinaryOp::Greater => Ok(i64::from(a > b)),
        BinaryOp::GreaterEqual => Ok(i64::from(a >= b)),
        BinaryOp::Equal => Ok(i64::from(a == b)),
        BinaryOp::NotEqual => Ok(i64::from(a != b)),
        BinaryOp::BitAnd => Ok(a & b),
        BinaryOp::BitXor => Ok(a ^ b),
        BinaryOp::BitOr => Ok(a | b),
        BinaryOp::And => Ok(i64::from(a != 0 && b != 0)),
        BinaryOp::Or => Ok(i64::from(a != 0 || b != 0)),
    }
}

/// Rounded toward zero.
fn quotient(a: i64, b: i64) -> Result<i64, Fault>
    ensures { result ≡ Values.binary_value BinaryOp.Divide a b }
{
    if b == 0 {
        return Err(Fault::DivZero);
    }
    a.checked_div(b).ok_or(Fault::Overflow)
}

/// What the quotient leaves.
fn remainder(a: i64, b: i64) -> Result<i64, Fault>
    ensures { result ≡ Values.binary_value BinaryOp.Remainder a b }
{
    if b == 0 {
        return Err(Fault::DivZero);
    }
    match a.checked_rem(b) {
        Some(rest) => Ok(rest),
        None => Err(Fault::Overflow),
    }
}

fn shifted_left(a: i64, b: i64) -> Result<i64, Fault>
    ensures { result ≡ Values.binary_value BinaryOp.ShiftLeft a b }
{
    match u32::try_from(b) {
        Ok(by) if by < 64 => times_power(a, by).ok_or(Fault::Overflow),
        _ => Err(Fault::Shift),
    }
}

fn shifted_right(a: i64, b: i64) -> Result<i64, Fault>
    ensures { result ≡ Values.binary_value BinaryOp.ShiftRight a b }
{
    match u32::try_from(b) {
        Ok(by) => a.checked_shr(by).ok_or(Fault::Shift),
        Err(_) => Err(Fault::Shift),
    }
}

/// `a` times 2 to the power of `by`, where that fits.
fn times_power(a: i64, by: u32) -> Option<i64>
    requires { by < 64 }
    ensures { SomeIff result (FitsSigned w64 (a *ℤ pos (2 ^ by))) (a *ℤ pos (2 ^ by)) }
{
    let size = a.unsigned_abs().checked_mul(1 << by)?;
    if a < 0 {
        0i64.checked_sub_unsigned(size)
    } else {
        i64::try_from(size).ok()
    }
}
