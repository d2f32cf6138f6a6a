//! The values that expressions have left, the last one on top. Where there is none it counts as 0,
//! which never comes.

ghost use Rattle.std.specs.Prelude.{◌≡◌};
ghost use Rattle.dsm_semantics.specs.States.{top, below};

use dsm_base::Stack;

/// The value on top.
pub fn top_value(operands: &Stack<i64>) -> i64
    ensures { result ≡ top operands.now }
{
    operands.top().unwrap_or(0)
}

/// The value below the one on top.
pub fn value_below(operands: &Stack<i64>) -> i64
    ensures { result ≡ top (below operands.now) }
{
    match operands.topmost(2) {
        [value, _] => *value,
        _ => 0,
    }
}

/// Takes the value on top.
pub fn pop_value(operands: &mut Stack<i64>) -> i64
    ensures value { result ≡ top operands.old }
    ensures rest { operands.new ≡ below operands.old }
{
    operands.pop().unwrap_or(0)
}
