//! Functions that are under way in saved threads.

ghost use Rattle.std.specs.Prelude.{◌≡◌, ◌==◌, ◌+◌, ◌≤◌, None, suc, length, IfOk};
ghost use Rattle.std.specs.Option.{option_copied};
ghost use Rattle.dsm_fields.specs.Reading.{Gives, numbered_at};
ghost use Rattle.dsm_saved.specs.Spelling as s;
ghost use Rattle.dsm_saved.specs.Reading.{known_at, frame_at, frames_at};

use crate::saved::SavedFrame;
use crate::stops::{called, is_place, value_count};
use crate::values::values;
use dsm_code::{Code, Row};
use dsm_fields::{FieldErr, byte, keeps, number, short_number};
use sqlite_items::Items;
use std::alloc::Global;

/// The function that an instruction calls, if there is one.
fn called_at(row: Option<Row>) -> Option<u16>
    ensures { result ≡ s.called_at row }
{
    match row {
        None => None,
        Some(row) => called(row.instr),
    }
}

/// The function that comes next: main at first, and then the one that the last one calls.
fn due(code: &Code, last: Option<&SavedFrame>) -> Option<u16>
    ensures { result ≡ s.due code.now (option_copied last.entry) }
{
    match last {
        None => Some(code.main()),
        Some(frame) => called_at(code.row(frame.function, frame.place as usize)),
    }
}

/// Whether a function is the one that comes next.
fn is_due(next: Option<u16>, function: u16) -> bool
    ensures { result ≡ s.is_due next function }
{
    match next {
        None => false,
        Some(next) => function == next,
    }
}

/// A function of which it is known whether it is the innermost, and which one comes next, and the bytes
/// behind it.
#[tactic(auto, unfolding(crate::specs::Reading::known_at))]
fn known<'a>(
    alloc: Global,
    code: &Code,
    is_last: bool,
    next: Option<u16>,
    bytes: &'a [u8],
) -> Result<(SavedFrame, &'a [u8]), FieldErr>
    ensures { Gives (λ x. (x.0, x.1.now)) result (known_at code.now is_last next bytes.now) }
{
    let (function, at_place) = short_number(bytes)?;
    keeps(is_due(next, function), bytes)?;
    let (place, at_count) = number(at_place)?;
    let row = code.row(function, place as usize);
    keeps(is_place(code, is_last, row), at_place)?;
    let (count, rest) = short_number(at_count)?;
    let due_count = value_count(code, is_last, function, row);
    keeps(u64::from(count) == due_count, at_count)?;
    let (values, rest) = values(alloc, row, u32::from(count), rest)?;
    let frame = SavedFrame {
        function,
        place,
        values: Items::from_vec(values),
    };
    Ok((frame, rest))
}

/// So many functions from main inwards and one more, and the bytes behind them.
fn counted<'a>(
    alloc: Global,
    code: &Code,
    waiting: u8,
    bytes: &'a [u8],
) -> Result<(Vec<SavedFrame>, &'a [u8]), FieldErr>
    ensures read { Gives (λ x. (x.0.items, x.1.now)) result
        (numbered_at (frame_at code.now waiting) 0 None (waiting + 1) bytes.now) }
    ensures count { IfOk result (λ x. length x.0.items ≡ waiting + 1) }
{
    let mut items: Vec<SavedFrame> = Vec::new(alloc);
    let mut rest = bytes;
    let count = u32::from(waiting) + 1;
    for number in 0..count {
        let next = due(code, items.last());
        let (item, after) = known(alloc, code, number == u32::from(waiting), next, rest)?;
        items.push(item)?;
        rest = after;
    }
    Ok((items, rest))
}

/// The functions that are under way, where the thread goes on, and the bytes behind them.
#[tactic(auto, unfolding(crate::specs::Reading::frames_at))]
pub(crate) fn frames<'a>(
    alloc: Global,
    code: &Code,
    way: u8,
    bytes: &'a [u8],
) -> Result<(Vec<SavedFrame>, &'a [u8]), FieldErr>
    ensures read { Gives (λ x. (x.0.items, x.1.now)) result (frames_at code.now way bytes.now) }
    ensures few { IfOk result (λ x. length x.0.items ≤ 256) }
{
    match way {
        0 => {
            let (waiting, rest) = byte(bytes)?;
            counted(alloc, code, waiting, rest)
        }
        _ => Ok((Vec::new(alloc), bytes)),
    }
}
