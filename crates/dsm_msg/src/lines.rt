//! Lines with their values, versions and arrivals in bytes.

ghost use Rattle.std.specs.Prelude.{◌≡◌, ◌≤◌, None};
ghost use Rattle.dsm_fields.specs.Reading.{Gives, entries_at, counted_at};
ghost use Rattle.dsm_msg.specs.Reading.{value_at, line_at};

use crate::entry::{Entry, counted, put_counted, put_entries};
use dsm_base::{Bar, Lock, MemFault};
use dsm_fields::{
    FieldErr, byte, is_from, is_over, is_second_over, keeps, number, put_byte, put_number,
    put_short, put_signed, short_number, signed,
};
use dsm_lines::{Arrival, Line, LineList, LineValues, Version};
use std::alloc::Global;

/// So many values, and the bytes behind them.
fn values(count: u8, bytes: &[u8]) -> Result<(LineValues, &[u8]), FieldErr>
    requires { count ≤ 8 }
    ensures { Gives (λ x. (x.0, x.1.now)) result (entries_at value_at None count bytes.now) }
{
    let mut values = LineValues::new();
    let mut rest = bytes;
    for _ in 0..count {
        let (value, after) = signed(rest)?;
        values.push(value);
        rest = after;
    }
    Ok((values, rest))
}

/// A count, so many lines, and the bytes behind them.
pub(crate) fn line_list(alloc: Global, bytes: &[u8]) -> Result<(LineList, &[u8]), FieldErr>
    ensures { Gives (λ x. (x.0, x.1.now)) result (counted_at line_at bytes.now) }
{
    let (lines, rest) = counted::<Line>(alloc, bytes)?;
    Ok((LineList::from_vec(lines), rest))
}

impl Entry for i64 {
    ghost use Rattle.dsm_msg.specs.Spelling.{value_fields};
    ghost use Rattle.dsm_msg.specs.Reading.{value_at};

    ghost entry_fields = { value_fields };

    ghost entry_at = { value_at };

    fn read<'a>(
        _alloc: Global,
        _last: Option<&i64>,
        bytes: &'a [u8],
    ) -> Result<(i64, &'a [u8]), FieldErr> {
        signed(bytes)
    }

    fn write(&self, out: &mut Vec<u8>) -> Result<(), MemFault> {
        put_signed(out, *self)
    }
}

impl Entry for Line {
    ghost use Rattle.dsm_msg.specs.Spelling.{line_fields};
    ghost use Rattle.dsm_msg.specs.Reading.{line_at};

    ghost entry_fields = { line_fields };

    ghost entry_at = { line_at };

    #[tactic(auto, unfolding(crate::specs::Reading::line_at))]
    fn read<'a>(
        _alloc: Global,
        last: Option<&Line>,
        bytes: &'a [u8],
    ) -> Result<(Line, &'a [u8]), FieldErr> {
        let (number, rest) = number(bytes)?;
        keeps(is_over(last.map(|last| last.number), number), bytes)?;
        let (count, after) = byte(rest)?;
        keeps(1 <= count && count <= 8, rest)?;
        let (values, rest) = values(count, after)?;
        Ok((Line { number, values }, rest))
    }

    fn write(&self, out: &mut Vec<u8>) -> Result<(), MemFault> {
        put_number(out, self.number)?;
        put_byte(out, self.values.len() as u8)?;
        put_entries(out, self.values.as_slice())
    }
}

impl Entry for Version {
    ghost use Rattle.dsm_msg.specs.Spelling.{version_fields};
    ghost use Rattle.dsm_msg.specs.Reading.{version_at};

    ghost entry_fields = { version_fields };

    ghost entry_at = { version_at };

    #[tactic(auto, unfolding(crate::specs::Reading::version_at))]
    fn read<'a>(
        alloc: Global,
        last: Option<&Version>,
        bytes: &'a [u8],
    ) -> Result<(Version, &'a [u8]), FieldErr> {
        let last = last.map(|last| (last.lock.0 as u32, last.version));
        let (lock, rest) = short_number(bytes)?;
        keeps(is_from(last, lock as u32), bytes)?;
        let (version, after) = number(rest)?;
        keeps(is_second_over(last, lock as u32, version), rest)?;
        let (lines, rest) = line_list(alloc, after)?;
        let lock = Lock(lock);
        Ok((
            Version {
                lock,
                version,
                lines,
            },
            rest,
        ))
    }

    fn write(&self, out: &mut Vec<u8>) -> Result<(), MemFault> {
        put_short(out, self.lock.0)?;
        put_number(out, self.version)?;
        put_counted(out, self.lines.as_slice())
    }
}

impl Entry for Arrival {
    ghost use Rattle.dsm_msg.specs.Spelling.{arrival_fields};
    ghost use Rattle.dsm_msg.specs.Reading.{arrival_at};

    ghost entry_fields = { arrival_fields };

    ghost entry_at = { arrival_at };

    #[tactic(auto, unfolding(crate::specs::Reading::arrival_at))]
    fn read<'a>(
        alloc: Global,
        last: Option<&Arrival>,
        bytes: &'a [u8],
    ) -> Result<(Arrival, &'a [u8]), FieldErr> {
        let last = last.map(|last| (last.bar.0 as u32, last.epoch));
        let (bar, rest) = byte(bytes)?;
        keeps(is_from(last, bar as u32), bytes)?;
        let (epoch, after) = number(rest)?;
        keeps(is_second_over(last, bar as u32, epoch), rest)?;
        let (lines, rest) = line_list(alloc, after)?;
        let bar = Bar(bar);
        Ok((Arrival { bar, epoch, lines }, rest))
    }

    fn write(&self, out: &mut Vec<u8>) -> Result<(), MemFault> {
        put_byte(out, self.bar.0)?;
        put_number(out, self.epoch)?;
        put_counted(out, self.lines.as_slice())
    }
}
