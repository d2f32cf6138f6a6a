//! Images as bytes.

ghost use Rattle.std.specs.Prelude.{◌≡◌, ◌⊎◌, ◌+◌, ◌++◌, length, Result, OnOk};
ghost use Rattle.dsm_base.specs.declared.errors.LoadErr.{LoadErr};
ghost use Rattle.dsm_base.specs.declared.setup.Setup.{Setup};
ghost use Rattle.dsm_image.specs.declared.image.Image.{Image};
ghost use Rattle.dsm_image_parts.specs.declared.scope.Scope.{Scope};
ghost use Rattle.dsm_fields.specs.Reading.{Gives};
ghost use Rattle.dsm_image.specs.Spelling.{spelling, IsInOrder, IsImage};
ghost use Rattle.dsm_image_parts.specs.Spelling.{scope_of};
ghost use Rattle.dsm_image.specs.Reading.{front_at};
ghost use Rattle.dsm_image.specs.Answers.{front_answer, IsAnswer, OneSpelling, OrMemory};

use crate::frame::{first_other, opened, seal, zero_count};
use crate::image::Image;
use crate::payload::{payload, put_payload};
use dsm_base::{LoadErr, MemFault, Setup};
use dsm_fields::{FieldErr, keeps, number, put_count, put_number};
use dsm_image_parts::Scope;
use std::alloc::Global;

/// `DSM1`, by which an image begins.
const MAGIC: u32 = 0x44534D31;

/// The image that the bytes before a digest spell, and the bytes behind it.
#[tactic(auto, unfolding(crate::specs::Reading::front_at))]
fn front<'a>(alloc: Global, scope: &Scope, bytes: &'a [u8]) -> Result<(Image, &'a [u8]), FieldErr>
    ensures { Gives (λ x. (x.0, x.1.now)) result (front_at scope.now (length bytes.now) bytes.now) }
{
    let (mark, after) = number(bytes)?;
    keeps(mark == MAGIC, bytes)?;
    let (size, rest) = number(after)?;
    keeps(size as usize == bytes.len(), after)?;
    payload(alloc, scope, rest)
}

/// No image, for what stands at this place.
fn bad_image(place: usize) -> LoadErr
    ensures { (result ≡ LoadErr.Memory) ⊎ (result ≡ LoadErr.BadImage place) }
{
    match u32::try_from(place) {
        Ok(place) => LoadErr::BadImage { place },
        Err(_) => LoadErr::Memory,
    }
}

/// The image that the bytes before a digest spell, all of them.
fn whole(alloc: Global, scope: &Scope, bytes: &[u8]) -> Result<Image, LoadErr>
    ensures { OrMemory result (result
        ≡ front_answer (length bytes.now) (front_at scope.now (length bytes.now) bytes.now)) }
{
    let left = match front(alloc, scope, bytes) {
        Ok((image, rest)) => {
            if rest.is_empty() {
                return Ok(image);
            }
            rest.len()
        }
        Err(FieldErr::Short { left }) => left,
        Err(FieldErr::Broken { left }) => left,
        Err(FieldErr::Memory) => return Err(LoadErr::Memory),
    };
    Err(bad_image(bytes.len().saturating_sub(left)))
}

/// The image that the bytes spell, with the zeros behind its digest.
fn answer(alloc: Global, bytes: &[u8], setup: &Setup) -> Result<Image, LoadErr>
    ensures { OrMemory result (IsAnswer (scope_of setup.now) result bytes.now) }
{
    let (front, behind) = opened(bytes)?;
    let scope = Scope::new(alloc, setup)?;
    let image = whole(alloc, &scope, front)?;
    match first_other(behind, zero_count(front.len())) {
        None => Ok(image),
        Some(at) => Err(bad_image(front.len().saturating_add(32).saturating_add(at))),
    }
}

/// Appends the one spelling of an image, whatever its setup is. A list that is too long for its count,
/// and an image that is too long for its length, are answered as out of memory.
pub fn write_image(alloc: Global, image: &Image, out: &mut Vec<u8>) -> Result<(), MemFault>
    ensures written { OnOk result ((scope : Scope) →
        out.new.items ≡ out.old.items ++ spelling scope image.now) }
    ensures image { OnOk result ((scope : Scope) →
        IsInOrder scope image.now → IsImage scope image.now) }
{
    let mut payload = Vec::new(alloc);
    put_payload(&mut payload, image)?;
    let size = payload.len() + 8;
    let mut front = Vec::new(alloc);
    put_number(&mut front, MAGIC)?;
    put_count(&mut front, size)?;
    front.extend_from_slice(payload.as_slice())?;
    seal(alloc, &mut front)?;
    out.extend_from_slice(front.as_slice())?;
    Ok(())
}

/// The image of this setup that the bytes spell, with the zeros behind its digest, or why they spell
/// none: `BadImage` at 4, where the length and the digest don't fit; else `Damaged`, where the digest
/// isn't that of the bytes before it; else `BadImage` with the first place at which no image of this
/// setup goes on. `Memory` also where a place is over 32 bits.
pub fn read_image(alloc: Global, bytes: &[u8], setup: &Setup) -> Result<Image, LoadErr>
    ensures fits { OrMemory result (IsAnswer (scope_of setup.now) result bytes.now) }
    ensures only { (other : Result Image LoadErr) →
        IsAnswer (scope_of setup.now) other bytes.now → OrMemory result (result ≡ other) }
{
    answer(alloc, bytes, setup)
}

/// Two images of one setup with the same bytes are the same.
pub fn one_spelling()
    ensures { (setup : Setup) → OneSpelling (scope_of setup) }
{}
