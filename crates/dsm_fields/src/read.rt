//! Readers of one field each. They give the value and the bytes behind it.

ghost use Rattle.std.specs.Prelude.{◌≡◌, true, false, length, MatchResult};
ghost use Rattle.dsm_fields.specs.Fields.{is_over, is_from, is_second_over, are_printable};
ghost use Rattle.dsm_fields.specs.Reading.{Gives, kept, byte_at, number_at, signed_at, mode_at, bool_at, text_at};

use crate::error::FieldErr;
use byteorder::{BigEndian, ByteOrder};
use dsm_base::{Mode, Text};
use std::alloc::Global;

/// One byte, and the bytes behind it.
#[tactic(auto, unfolding(crate::specs::Reading::byte_at))]
pub fn byte(bytes: &[u8]) -> Result<(u8, &[u8]), FieldErr>
    ensures { Gives (λ x. (x.0, x.1.now)) result (byte_at bytes.now) }
{
    match bytes {
        [] => Err(FieldErr::Short { left: bytes.len() }),
        [byte, rest @ ..] => Ok((*byte, rest)),
    }
}

/// A number of two bytes, and the bytes behind it.
#[tactic(auto, unfolding(crate::specs::Reading::number_at))]
pub fn short_number(bytes: &[u8]) -> Result<(u16, &[u8]), FieldErr>
    ensures { Gives (λ x. (x.0, x.1.now)) result (number_at 2 bytes.now) }
{
    if bytes.len() < 2 {
        return Err(FieldErr::Short { left: bytes.len() });
    }
    let (front, rest) = bytes.split_at(2);
    Ok((BigEndian::read_u16(front), rest))
}

/// A number of four bytes, and the bytes behind it.
#[tactic(auto, unfolding(crate::specs::Reading::number_at))]
pub fn number(bytes: &[u8]) -> Result<(u32, &[u8]), FieldErr>
    ensures { Gives (λ x. (x.0, x.1.now)) result (number_at 4 bytes.now) }
{
    if bytes.len() < 4 {
        return Err(FieldErr::Short { left: bytes.len() });
    }
    let (front, rest) = bytes.split_at(4);
    Ok((BigEndian::read_u32(front), rest))
}

/// A signed number of eight bytes, and the bytes behind it.
#[tactic(auto, unfolding(crate::specs::Reading::signed_at))]
pub fn signed(bytes: &[u8]) -> Result<(i64, &[u8]), FieldErr>
    ensures { Gives (λ x. (x.0, x.1.now)) result (signed_at bytes.now) }
{
    if bytes.len() < 8 {
        return Err(FieldErr::Short { left: bytes.len() });
    }
    let (front, rest) = bytes.split_at(8);
    Ok((BigEndian::read_i64(front), rest))
}

/// The byte of a mode, and the bytes behind it.
#[tactic(auto, unfolding(crate::specs::Reading::mode_at))]
pub fn mode(bytes: &[u8]) -> Result<(Mode, &[u8]), FieldErr>
    ensures { Gives (λ x. (x.0, x.1.now)) result (mode_at bytes.now) }
{
    match bytes {
        [] => Err(FieldErr::Short { left: bytes.len() }),
        [0, rest @ ..] => Ok((Mode::Shared, rest)),
        [1, rest @ ..] => Ok((Mode::Excl, rest)),
        [_, ..] => Err(FieldErr::Broken { left: bytes.len() }),
    }
}

/// A byte that is 0 or 1, and the bytes behind it.
#[tactic(auto, unfolding(crate::specs::Reading::bool_at))]
pub fn flag(bytes: &[u8]) -> Result<(bool, &[u8]), FieldErr>
    ensures { Gives (λ x. (x.0, x.1.now)) result (bool_at bytes.now) }
{
    match bytes {
        [] => Err(FieldErr::Short { left: bytes.len() }),
        [0, rest @ ..] => Ok((false, rest)),
        [1, rest @ ..] => Ok((true, rest)),
        [_, ..] => Err(FieldErr::Broken { left: bytes.len() }),
    }
}

/// So many bytes, and the bytes behind them.
#[tactic(auto, unfolding(crate::specs::Reading::text_at))]
pub fn text(alloc: Global, count: usize, bytes: &[u8]) -> Result<(Text, &[u8]), FieldErr>
    ensures { Gives (λ x. (x.0, x.1.now)) result (text_at count bytes.now) }
{
    if bytes.len() < count {
        return Err(FieldErr::Short { left: bytes.len() });
    }
    let (front, rest) = bytes.split_at(count);
    Ok((Text::from_slice(alloc, front)?, rest))
}

/// So many printable bytes, and the bytes behind them.
#[tactic(auto, unfolding(crate::specs::Reading::text_at))]
pub fn printed(alloc: Global, count: usize, bytes: &[u8]) -> Result<(Text, &[u8]), FieldErr>
    ensures { Gives (λ x. (x.0, x.1.now)) result (kept are_printable (text_at count) bytes.now) }
{
    if bytes.len() < count {
        return Err(FieldErr::Short { left: bytes.len() });
    }
    let (front, rest) = bytes.split_at(count);
    keeps(are_printable(front), bytes)?;
    Ok((Text::from_slice(alloc, front)?, rest))
}

/// Whether the field that begins here keeps its range and its order.
pub fn keeps(fits: bool, field: &[u8]) -> Result<(), FieldErr>
    ensures { MatchResult result (λ _. fits ≡ true)
        (λ e. (fits ≡ false) × (e ≡ FieldErr.Broken (length field.now))) }
{
    if fits {
        Ok(())
    } else {
        Err(FieldErr::Broken { left: field.len() })
    }
}

/// Whether a number is over that of the entry before it, where there is one.
pub fn is_over(last: Option<u32>, number: u32) -> bool
    ensures { result ≡ is_over last number }
{
    match last {
        None => true,
        Some(last) => last < number,
    }
}

/// Whether each byte is printable.
fn are_printable(bytes: &[u8]) -> bool
    ensures { result ≡ are_printable bytes.now }
{
    bytes.iter().all(|byte| 32 <= *byte && *byte <= 126)
}

/// Whether the first number isn't below that of the entry before it, where there is one.
pub fn is_from(last: Option<(u32, u32)>, first: u32) -> bool
    ensures { result ≡ is_from last first }
{
    match last {
        None => true,
        Some((before, _)) => before <= first,
    }
}

/// Whether the entry before it, where there is one, has another first number or a lower second.
pub fn is_second_over(last: Option<(u32, u32)>, first: u32, second: u32) -> bool
    ensures { result ≡ is_second_over last first second }
{
    match last {
        None => true,
        Some((before, under)) => before < first || under < second,
    }
}
