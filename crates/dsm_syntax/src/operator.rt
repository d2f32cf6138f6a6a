//! What a token stands for, where an expression may begin and behind an operand.

ghost use Rattle.std.specs.Prelude.{◌≡◌, ◌≤◌};
ghost use Rattle.dsm_syntax.specs.Views.{view};
ghost use Rattle.dsm_syntax.specs.Operators.{binary_level};
ghost use Rattle.dsm_syntax.specs.Reading.{look};
ghost use Rattle.dsm_syntax.specs.Roles.{step_op, lead_sign, lead, is_lead, infix_op, step_of, infix_of, infix_tightness};

use crate::cursor::Cursor;
use crate::{AssignOp, BinaryOp, Expression, Sign, StepOp, UnaryOp};

/// What stands between operands.
#[derive(Clone, Copy, Debug, PartialEq, Eq)]
pub enum Infix {
    Binary(BinaryOp),
    /// `?`
    Question,
    Assign(AssignOp),
}

/// What begins with a token where an expression may begin. The lines are those of operators.
#[derive(Clone, Copy, Debug, PartialEq, Eq)]
pub enum Lead {
    Number(i64),
    Name,
    /// `(`
    Paren,
    Unary(UnaryOp, u32),
    Step(StepOp, u32),
    /// No expression.
    Nothing,
}

fn step_op(sign: Sign) -> Option<StepOp>
    ensures { result ≡ step_op sign }
{
    match sign {
        Sign::PlusPlus => Some(StepOp::Increment),
        Sign::MinusMinus => Some(StepOp::Decrement),
        _ => None,
    }
}

/// The step that comes next, and its line.
pub fn next_step(cursor: &Cursor<'_>) -> Option<(StepOp, u32)>
    ensures { result ≡ step_of (look cursor.now) }
{
    let (sign, line) = cursor.placed_sign()?;
    Some((step_op(sign)?, line))
}

fn lead_sign(sign: Sign, line: u32) -> Lead
    ensures { result ≡ lead_sign sign line }
{
    match sign {
        Sign::Minus => Lead::Unary(UnaryOp::Negate, line),
        Sign::Plus => Lead::Unary(UnaryOp::Plus, line),
        Sign::Not => Lead::Unary(UnaryOp::Not, line),
        Sign::Tilde => Lead::Unary(UnaryOp::Complement, line),
        Sign::PlusPlus => Lead::Step(StepOp::Increment, line),
        Sign::MinusMinus => Lead::Step(StepOp::Decrement, line),
        _ => Lead::Nothing,
    }
}

impl Lead {
    /// What begins with the next token.
    pub fn next(cursor: &Cursor<'_>) -> Lead
        ensures { result ≡ lead (look cursor.now) }
    {
        if let Some((sign, line)) = cursor.placed_sign() {
            return lead_sign(sign, line);
        }
        if let Some(number) = cursor.next_number() {
            return Lead::Number(number);
        }
        if cursor.is_name() {
            Lead::Name
        } else if cursor.is_sign(Sign::ParenOpen) {
            Lead::Paren
        } else {
            Lead::Nothing
        }
    }

    /// Whether anything does.
    pub fn is_some(self) -> bool
        ensures { result ≡ is_lead self }
    {
        !matches!(self, Lead::Nothing)
    }
}

fn infix_op(sign: Sign) -> Option<Infix>
    ensures { result ≡ infix_op sign }
{
    Some(match sign {
        Sign::Star => Infix::Binary(BinaryOp::Times),
        Sign::Slash => Infix::Binary(BinaryOp::Divide),
        Sign::Percent => Infix::Binary(BinaryOp::Remainder),
        Sign::Plus => Infix::Binary(BinaryOp::Plus),
        Sign::Minus => Infix::Binary(BinaryOp::Minus),
        Sign::ShiftLeft => Infix::Binary(BinaryOp::ShiftLeft),
        Sign::ShiftRight => Infix::Binary(BinaryOp::ShiftRight),
        Sign::Less => Infix::Binary(BinaryOp::Less),
        Sign::LessEqual => Infix::Binary(BinaryOp::LessEqual),
        Sign::Greater => Infix::Binary(BinaryOp::Greater),
        Sign::GreaterEqual => Infix::Binary(BinaryOp::GreaterEqual),
        Sign::Equal => Infix::Binary(BinaryOp::Equal),
        Sign::NotEqual => Infix::Binary(BinaryOp::NotEqual),
        Sign::And => Infix::Binary(BinaryOp::BitAnd),
        Sign::Caret => Infix::Binary(BinaryOp::BitXor),
        Sign::Or => Infix::Binary(BinaryOp::BitOr),
        Sign::AndAnd => Infix::Binary(BinaryOp::And),
        Sign::OrOr => Infix::Binary(BinaryOp::Or),
        Sign::Question => Infix::Question,
        Sign::Assign => Infix::Assign(AssignOp::Set),
        Sign::PlusAssign => Infix::Assign(AssignOp::Plus),
        Sign::MinusAssign => Infix::Assign(AssignOp::Minus),
        Sign::StarAssign => Infix::Assign(AssignOp::Times),
        Sign::SlashAssign => Infix::Assign(AssignOp::Divide),
        Sign::PercentAssign => Infix::Assign(AssignOp::Remainder),
        Sign::AndAssign => Infix::Assign(AssignOp::BitAnd),
        Sign::OrAssign => Infix::Assign(AssignOp::BitOr),
        Sign::CaretAssign => Infix::Assign(AssignOp::BitXor),
        Sign::ShiftLeftAssign => Infix::Assign(AssignOp::ShiftLeft),
        Sign::ShiftRightAssign => Infix::Assign(AssignOp::ShiftRight),
        _ => return None,
    })
}

/// How tightly an operator binds, from 2 to 11.
pub fn level(op: BinaryOp) -> u8
    ensures value { result ≡ binary_level op }
    ensures small { result ≤ 11 }
{
    match op {
        BinaryOp::Times | BinaryOp::Divide | BinaryOp::Remainder => 11,
        BinaryOp::Plus | BinaryOp::Minus => 10,
        BinaryOp::ShiftLeft | BinaryOp::ShiftRight => 9,
        BinaryOp::Less | BinaryOp::LessEqual | BinaryOp::Greater | BinaryOp::GreaterEqual => 8,
        BinaryOp::Equal | BinaryOp::NotEqual => 7,
        BinaryOp::BitAnd => 6,
        BinaryOp::BitXor => 5,
        BinaryOp::BitOr => 4,
        BinaryOp::And => 3,
        BinaryOp::Or => 2,
    }
}

impl Infix {
    /// What stands next between operands, and its line.
    pub fn next(cursor: &Cursor<'_>) -> Option<(Infix, u32)>
        ensures { result ≡ infix_of (look cursor.now) }
    {
        let (sign, line) = cursor.placed_sign()?;
        Some((infix_op(sign)?, line))
    }

    /// How tightly it binds an expression before it: one more than its level, or 0 where it can't
    /// stand there.
    pub fn tightness(self, left: &Expression) -> u8
        ensures { result ≡ infix_tightness (view left.now) self }
    {
        match self {
            Infix::Binary(op) => level(op) + 1,
            Infix::Question => 2,
            Infix::Assign(_) => u8::from(matches!(left, Expression::Place(_))),
        }
    }
}
