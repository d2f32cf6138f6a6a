//! Saved threads of bytes.

ghost use Rattle.std.specs.Prelude.{◌≡◌, ◌⊎◌, ◌≤◌, length, Result, IfOk};
ghost use Rattle.dsm_base.specs.declared.errors.LoadErr.{LoadErr};
ghost use Rattle.dsm_fields.specs.Reading.{Gives};
ghost use Rattle.dsm_saved.specs.declared.saved.Saved.{Saved};
ghost use Rattle.dsm_saved.specs.Spelling as s;
ghost use Rattle.dsm_saved.specs.Reading.{saved_at};
ghost use Rattle.dsm_saved.specs.Answers.{IsAnswer, OrMemory, answer_of};

use crate::frames::frames;
use crate::saved::Saved;
use crate::values::own;
use dsm_base::LoadErr;
use dsm_code::Code;
use dsm_fields::{FieldErr, byte, keeps, number};
use sqlite_items::Items;
use std::alloc::Global;

/// Whether a number stands for a fault, where the thread has stopped; else it is 0.
fn is_fault(way: u8, fault: u8) -> bool
    ensures { result ≡ s.is_fault way fault }
{
    fault < if way == 2 { 8 } else { 1 }
}

/// Whether a line is 0, where the thread has not stopped.
fn is_line(way: u8, line: u32) -> bool
    ensures { result ≡ s.is_line way line }
{
    way == 2 || line == 0
}

/// The saved thread that bytes begin with, and the bytes behind it.
#[tactic(auto, unfolding(crate::specs::Reading::saved_at))]
fn saved<'a>(alloc: Global, code: &Code, bytes: &'a [u8]) -> Result<(Saved, &'a [u8]), FieldErr>
    ensures read { Gives (λ x. (x.0, x.1.now)) result (saved_at code.now bytes.now) }
    ensures few { IfOk result (λ x. length x.0.frames ≤ 256) }
{
    let (way, at_fault) = byte(bytes)?;
    keeps(way < 3, bytes)?;
    let (fault, at_line) = byte(at_fault)?;
    keeps(is_fault(way, fault), at_fault)?;
    let (line, rest) = number(at_line)?;
    keeps(is_line(way, line), at_line)?;
    let (own, rest) = own(alloc, code, rest)?;
    let (frames, rest) = frames(alloc, code, way, rest)?;
    let saved = Saved {
        way,
        fault,
        line,
        own: Items::from_vec(own),
        frames: Items::from_vec(frames),
    };
    Ok((saved, rest))
}

/// No saved thread, for what stands at this place.
fn bad_image(place: usize) -> LoadErr
    ensures { (result ≡ LoadErr.Memory) ⊎ (result ≡ LoadErr.BadImage place) }
{
    match u32::try_from(place) {
        Ok(place) => LoadErr::BadImage { place },
        Err(_) => LoadErr::Memory,
    }
}

/// The saved thread that bytes spell, all of them.
fn whole(alloc: Global, code: &Code, bytes: &[u8]) -> Result<Saved, LoadErr>
    ensures read { OrMemory result (result
        ≡ answer_of (length bytes.now) (saved_at code.now bytes.now)) }
    ensures few { IfOk result (λ saved. length saved.frames ≤ 256) }
{
    let left = match saved(alloc, code, bytes) {
        Ok((saved, rest)) => {
            if rest.is_empty() {
                return Ok(saved);
            }
            rest.len()
        }
        Err(FieldErr::Short { left }) => left,
        Err(FieldErr::Broken { left }) => left,
        Err(FieldErr::Memory) => return Err(LoadErr::Memory),
    };
    Err(bad_image(bytes.len().saturating_sub(left)))
}

/// The saved thread of this code that the bytes spell, or `BadImage` with the first place at which none
/// goes on: the first byte of a field that is none behind those before it, or of what stands behind the
/// last field. `Memory` also where a place is over 32 bits.
pub fn read_saved(alloc: Global, code: &Code, bytes: &[u8]) -> Result<Saved, LoadErr>
    ensures fits { OrMemory result (IsAnswer code.now result bytes.now) }
    ensures only { (other : Result Saved LoadErr) →
        IsAnswer code.now other bytes.now → OrMemory result (result ≡ other) }
    ensures few { IfOk result (λ saved. length saved.frames ≤ 256) }
{
    whole(alloc, code, bytes)
}
