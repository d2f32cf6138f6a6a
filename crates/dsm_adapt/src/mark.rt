//! The file of a mark: a byte for the slot, and four for the number of its blocks, the highest first.

ghost use Rattle.std.specs.Prelude.{◌≡◌, IfOk, IfSome, IfNone};
ghost use Rattle.dsm_base.specs.Store.{IsMark, IsMarkOrNone};
ghost use Rattle.dsm_adapt.specs.Marks.{mark_bytes, IsNoMark};

use dsm_base::u32_at;
use std::fs::{self, OpenFile};
use std::io::{self, ErrorKind, Read, Write};
use std::rt;

/// The bytes of a mark.
fn mark_bytes(slot: u8, blocks: u32) -> [u8; 5]
    ensures { result ≡ mark_bytes (slot, blocks) }
{
    let [a, b, c, d] = blocks.to_be_bytes();
    [slot, a, b, c, d]
}

/// The mark that has these bytes, if there is one.
fn mark_of(bytes: &[u8; 5]) -> Option<(u8, u32)>
    ensures spelled { IfSome result (λ mark. bytes.now ≡ mark_bytes mark) }
    ensures mark { IfSome result IsMark }
    ensures none { IfNone result (IsNoMark bytes.now) }
{
    let (blocks, _) = u32_at(&bytes[1..])?;
    if bytes[0] < 3 && blocks > 0 {
        Some((bytes[0], blocks))
    } else {
        None
    }
}

/// The mark that a file holds; `None` where there is no such file. Other bytes than those of a mark are
/// an error.
pub fn read_mark<R: rt::Files>(host: &R, path: &str) -> io::Result<Option<(u8, u32)>>
    ensures { IfOk result IsMarkOrNone }
{
    let mut file = match fs::open(host, path) {
        Ok(file) => file,
        Err(error) if error.kind() == ErrorKind::NotFound => return Ok(None),
        Err(error) => return Err(error),
    };
    let mut bytes = [0; 5];
    file.read_exact(&mut bytes)?;
    if file.read(&mut [0; 1])? > 0 {
        return Err(ErrorKind::InvalidData.into());
    }
    match mark_of(&bytes) {
        Some(mark) => Ok(Some(mark)),
        None => Err(ErrorKind::InvalidData.into()),
    }
}

/// Puts a mark in the place of the one before, at once: it is written aside, and takes its name when
/// it is on the disk.
pub fn write_mark<R: rt::Files>(
    host: &R,
    aside: &str,
    path: &str,
    slot: u8,
    blocks: u32,
) -> io::Result<()> {
    let mut file = fs::create(host, aside)?;
    file.write_all(&mark_bytes(slot, blocks))?;
    file.sync_all()?;
    fs::rename(host, aside, path)
}

/// Removes a mark, if there is one.
pub fn remove_mark<R: rt::Files>(host: &R, path: &str) -> io::Result<()> {
    match fs::remove_file(host, path) {
        Err(error) if error.kind() == ErrorKind::NotFound => Ok(()),
        answer => answer,
    }
}
