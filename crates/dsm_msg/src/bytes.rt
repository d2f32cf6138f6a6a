//! Messages as bytes.

ghost use Rattle.std.specs.Prelude.{◌≡◌, ◌⊎◌, ◌++◌, Result, OnOk};
ghost use Rattle.dsm_msg.specs.declared.error.MsgErr.{MsgErr};
ghost use Rattle.dsm_msg.specs.declared.message.Msg.{Msg};
ghost use Rattle.dsm_fields.specs.Fields.{Appends};
ghost use Rattle.dsm_msg.specs.Spelling.{carry_fields, message_fields, spelling, IsInOrder, IsMessage};
ghost use Rattle.dsm_fields.specs.Reading.{Gives};
ghost use Rattle.dsm_msg.specs.Reading.{carry_at, message_at};
ghost use Rattle.dsm_msg.specs.Answers.{OrMemory, IsAnswer, NoPrefix, answer_of, fault_of};

use crate::body::{body, kind_of, put_body};
use crate::entry::{counted, put_counted};
use crate::error::MsgErr;
use crate::message::{Carry, Msg};
use dsm_base::{MemFault, Proc};
use dsm_fields::{FieldErr, byte, keeps, number, put_byte, put_number};
use sqlite_items::Items;
use std::alloc::Global;

#[tactic(auto, unfolding(crate::specs::Reading::carry_at))]
fn carry(alloc: Global, bytes: &[u8]) -> Result<(Carry, &[u8]), FieldErr>
    ensures { Gives (λ x. (x.0, x.1.now)) result (carry_at bytes.now) }
{
    let (turn, rest) = number(bytes)?;
    let (seen, rest) = number(rest)?;
    let (records, rest) = counted(alloc, rest)?;
    let (lines, rest) = counted(alloc, rest)?;
    let carry = Carry {
        turn,
        seen,
        records: Items::from_vec(records),
        lines: Items::from_vec(lines),
    };
    Ok((carry, rest))
}

/// The message at the front, and the bytes behind it.
#[tactic(auto, unfolding(crate::specs::Reading::message_at))]
pub(crate) fn message(alloc: Global, bytes: &[u8]) -> Result<(Msg, &[u8]), FieldErr>
    ensures { Gives (λ x. (x.0, x.1.now)) result (message_at bytes.now) }
{
    let (kind, after) = byte(bytes)?;
    keeps(1 <= kind && kind <= 10, bytes)?;
    let (from, rest) = byte(after)?;
    keeps(from < 16, after)?;
    let (to, after) = byte(rest)?;
    keeps(to < 16 && to != from, rest)?;
    let (carry, rest) = carry(alloc, after)?;
    let (body, rest) = body(alloc, kind, rest)?;
    let msg = Msg {
        from: Proc(from),
        to: Proc(to),
        carry,
        body,
    };
    Ok((msg, rest))
}

fn put_carry(out: &mut Vec<u8>, carry: &Carry) -> Result<(), MemFault>
    ensures { OnOk result (Appends (carry_fields carry.now) out.old.items out.new.items) }
{
    put_number(out, carry.turn)?;
    put_number(out, carry.seen)?;
    put_counted(out, carry.records.as_slice())?;
    put_counted(out, carry.lines.as_slice())
}

/// Appends the fields of the message.
pub(crate) fn put_message(out: &mut Vec<u8>, msg: &Msg) -> Result<(), MemFault>
    ensures { OnOk result (Appends (message_fields msg.now) out.old.items out.new.items) }
{
    put_byte(out, kind_of(&msg.body))?;
    put_byte(out, msg.from.0)?;
    put_byte(out, msg.to.0)?;
    put_carry(out, &msg.carry)?;
    put_body(out, &msg.body)
}

/// Why there is no message where a field that begins where so many bytes are left isn't fit.
fn fault_at(bytes: &[u8], left: usize) -> MsgErr
    ensures { (result ≡ MsgErr.Memory) ⊎ (result ≡ fault_of bytes.now left) }
{
    match bytes {
        [kind, ..] if left == bytes.len() => MsgErr::BadKind(*kind),
        _ => match u32::try_from(bytes.len().saturating_sub(left)) {
            Ok(place) => MsgErr::BadField { place },
            Err(_) => MsgErr::Memory,
        },
    }
}

/// So many bytes behind a message.
fn rest_of(count: usize) -> MsgErr
    ensures { (result ≡ MsgErr.Memory) ⊎ (result ≡ MsgErr.Rest count) }
{
    match u32::try_from(count) {
        Ok(count) => MsgErr::Rest { count },
        Err(_) => MsgErr::Memory,
    }
}

/// The message that the bytes spell, all of them.
fn answer(alloc: Global, bytes: &[u8]) -> Result<Msg, MsgErr>
    ensures { OrMemory result (result ≡ answer_of bytes.now (message_at bytes.now)) }
{
    match message(alloc, bytes) {
        Ok((msg, rest)) => {
            if rest.is_empty() {
                Ok(msg)
            } else {
                Err(rest_of(rest.len()))
            }
        }
        Err(FieldErr::Short { .. }) => Err(MsgErr::Short),
        Err(FieldErr::Broken { left }) => Err(fault_at(bytes, left)),
        Err(FieldErr::Memory) => Err(MsgErr::Memory),
    }
}

/// Appends the one spelling of a message that keeps each range and order. A list that is too long for
/// its count is answered as out of memory.
pub fn write_msg(msg: &Msg, out: &mut Vec<u8>) -> Result<(), MemFault>
    ensures written { OnOk result (out.new.items ≡ out.old.items ++ spelling msg.now) }
    ensures message { OnOk result (IsInOrder msg.now → IsMessage msg.now) }
{
    put_message(out, msg)
}

/// The message that the bytes spell, all of them, or the first fault from the left: `Short`, where they
/// end before the message does; `BadKind`, where the first byte is no kind; `BadField`, with the place of
/// the first field that breaks its range or its order; `Rest`, with the count of bytes behind a whole
/// message. `Memory` also where a place or a count is over 32 bits.
pub fn read_msg(alloc: Global, bytes: &[u8]) -> Result<Msg, MsgErr>
    ensures fits { OrMemory result (IsAnswer result bytes.now) }
    ensures only { (other : Result Msg MsgErr) → IsAnswer other bytes.now →
        OrMemory result (result ≡ other) }
{
    answer(alloc, bytes)
}

/// No spelling of a message begins another's.
pub fn no_spelling_begins_another()
    ensures { NoPrefix }
{}
