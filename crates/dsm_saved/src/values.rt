//! Values of saved threads.

ghost use Rattle.std.specs.Prelude.{◌≡◌, None};
ghost use Rattle.dsm_fields.specs.Reading.{Gives, numbered_at};
ghost use Rattle.dsm_saved.specs.Reading.{value_at, own_at};

use crate::stops::is_value;
use dsm_code::{Code, Row};
use dsm_fields::{FieldErr, keeps, number, signed};
use std::alloc::Global;

/// A value of so many of a function at an instruction, and the bytes behind it.
fn value(
    row: Option<Row>,
    count: u32,
    number: u32,
    last: Option<i64>,
    bytes: &[u8],
) -> Result<(i64, &[u8]), FieldErr>
    ensures { Gives (λ x. (x.0, x.1.now)) result (value_at row count number last bytes.now) }
{
    let (value, rest) = signed(bytes)?;
    keeps(is_value(row, count, number, last, value), bytes)?;
    Ok((value, rest))
}

/// So many values of a function at an instruction, and the bytes behind them.
pub(crate) fn values(
    alloc: Global,
    row: Option<Row>,
    count: u32,
    bytes: &[u8],
) -> Result<(Vec<i64>, &[u8]), FieldErr>
    ensures { Gives (λ x. (x.0.items, x.1.now)) result
        (numbered_at (value_at row count) 0 None count bytes.now) }
{
    let mut items = Vec::new(alloc);
    let mut rest = bytes;
    for number in 0..count {
        let (item, after) = value(row, count, number, items.last().copied(), rest)?;
        items.push(item)?;
        rest = after;
    }
    Ok((items, rest))
}

/// The private cells, and the bytes behind them.
#[tactic(auto, unfolding(crate::specs::Reading::own_at))]
pub(crate) fn own<'a>(
    alloc: Global,
    code: &Code,
    bytes: &'a [u8],
) -> Result<(Vec<i64>, &'a [u8]), FieldErr>
    ensures { Gives (λ x. (x.0.items, x.1.now)) result (own_at code.now bytes.now) }
{
    let (count, rest) = number(bytes)?;
    keeps(count == code.private_cells(), bytes)?;
    values(alloc, None, count, rest)
}
