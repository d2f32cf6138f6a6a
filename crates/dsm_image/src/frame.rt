//! Bytes with their length and digest, filled up with zeros.

ghost use Rattle.std.specs.Prelude.{◌≡◌, ◌≤◌, ◌+◌, ◌++◌, length, replicate, MatchOption, MatchResult, OnOk};
ghost use Rattle.sha2.specs.Sha256.{sha256};
ghost use Rattle.dsm_image.specs.Frame.{size_in, front_of, kept_in, behind_in, zero_count, sealed, IsRoomy, IsFirstOther};
ghost use Rattle.dsm_image.specs.Answers.{IsOpened, IsClosed};

use byteorder::{BigEndian, ByteOrder};
use dsm_base::{Digest, LoadErr, MemFault};
use sha2::{Digest as _, Sha256};
use std::alloc::Global;

/// The number behind the first four bytes.
fn size_in(bytes: &[u8]) -> u32
    requires { 8 ≤ length bytes.now }
    ensures { result ≡ size_in bytes.now }
{
    let (_, rest) = bytes.split_at(4);
    let (number, _) = rest.split_at(4);
    BigEndian::read_u32(number)
}

/// The digest of bytes.
fn digest_of(bytes: &[u8]) -> Digest
    ensures { result.0 ≡ sha256 bytes.now }
{
    Digest(Sha256::digest(bytes))
}

/// The digest that stands in 32 bytes.
fn digest_in(bytes: &[u8]) -> Digest
    requires { length bytes.now ≡ 32 }
    ensures { result.0 ≡ bytes.now }
{
    let mut digest = [0; 32];
    digest.copy_from_slice(bytes);
    Digest(digest)
}

/// All bytes before the digest, and all behind it. `BadImage` at 4, where the length and the digest
/// don't fit; `Damaged`, where the digest isn't that of the bytes before it.
pub(crate) fn opened(bytes: &[u8]) -> Result<(&[u8], &[u8]), LoadErr>
    ensures { MatchResult result (λ parts. IsOpened parts.0.now parts.1.now bytes.now)
        (λ e. IsClosed e bytes.now) }
{
    if bytes.len() < 8 {
        return Err(LoadErr::BadImage { place: 4 });
    }
    let size = size_in(bytes) as usize;
    if bytes.len() < size + 32 {
        return Err(LoadErr::BadImage { place: 4 });
    }
    let (front, rest) = bytes.split_at(size);
    let (kept, behind) = rest.split_at(32);
    let kept = digest_in(kept);
    let found = digest_of(front);
    if kept == found {
        Ok((front, behind))
    } else {
        Err(LoadErr::Damaged { kept, found })
    }
}

/// How many zeros follow so many bytes and a digest, up to the next multiple of 512.
pub(crate) fn zero_count(size: usize) -> usize
    ensures { result ≡ zero_count size }
{
    511 - (size % 512 + 31) % 512
}

/// Adds the digest of bytes, and the zeros behind it.
pub(crate) fn seal(alloc: Global, bytes: &mut Vec<u8>) -> Result<(), MemFault>
    ensures { OnOk result (bytes.new.items ≡ sealed bytes.old.items) }
{
    let count = zero_count(bytes.len());
    let digest = digest_of(bytes.as_slice());
    bytes.extend_from_slice(&digest.0)?;
    let zeros = vec![in alloc; 0; count]?;
    bytes.extend_from_slice(zeros.as_slice())?;
    Ok(())
}

/// The first place at which bytes aren't so many zeros.
pub(crate) fn first_other(bytes: &[u8], zeros: usize) -> Option<usize>
    ensures { MatchOption result (bytes.now ≡ replicate zeros 0)
        (λ at. IsFirstOther at bytes.now (replicate zeros 0)) }
{
    let due = bytes.len().min(zeros);
    for at in 0..due {
        if bytes[at] != 0 {
            return Some(at);
        }
    }
    if bytes.len() == zeros {
        None
    } else {
        Some(due)
    }
}
