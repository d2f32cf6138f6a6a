//! Images read and written through their public calls.

use dsm_base::{Bar, Cell, Digest, LoadErr, Lock, MemFault, Object, Piece, Setup};
use dsm_image::{read_image, write_image};
use sha2::{Digest as _, Sha256};
use sqlite_items::Items;
use std::alloc::Global;
use std::test::Fail;

/// All before the digest of an image of processor 1 after seven turns. It holds lock 0, whose one cell
/// is 5, has a grant of turn 8 in its mailbox, three bodies for processor 0 in its outbox, and a line
/// that isn't safe. It is the home of lock 1, whose one cell is 6, and has logged two grants and a
/// record for processor 0.
const FRONT: [u8; 309] = [
    68, 83, 77, 49, 0, 0, 1, 53, 1, 2, 0, 0, 0, 7, 0, 0, 0, 3, 97, 98, 99, 0, 0, 0, 3, 0, 0, 0, 0,
    0, 0, 0, 5, 0, 0, 0, 0, 0, 0, 0, 6, 0, 0, 0, 0, 0, 0, 0, 0, 0, 0, 0, 1, 0, 0, 0, 0, 0, 0, 0, 2,
    0, 0, 0, 3, 2, 0, 0, 0, 0, 0, 0, 0, 0, 0, 0, 1, 0, 0, 0, 1, 0, 0, 0, 1, 0, 0, 0, 1, 0, 0, 0, 8,
    0, 0, 1, 0, 0, 0, 3, 0, 0, 0, 1, 0, 0, 0, 0, 1, 255, 255, 255, 255, 255, 255, 255, 254, 0, 0,
    0, 0, 0, 0, 0, 4, 0, 0, 0, 0, 0, 0, 0, 3, 0, 0, 0, 5, 3, 0, 0, 1, 0, 0, 0, 4, 0, 0, 0, 1, 0, 0,
    0, 0, 1, 0, 0, 0, 0, 0, 0, 0, 7, 0, 0, 0, 6, 4, 0, 0, 0, 0, 1, 0, 0, 0, 0, 0, 0, 0, 7, 1, 0, 0,
    0, 0, 0, 0, 4, 0, 0, 0, 6, 0, 0, 0, 1, 0, 0, 0, 7, 0, 0, 0, 0, 0, 2, 0, 0, 0, 1, 0, 0, 0, 7, 0,
    2, 104, 105, 0, 0, 0, 1, 0, 0, 0, 0, 0, 1, 0, 0, 0, 1, 0, 0, 0, 0, 1, 0, 0, 0, 0, 0, 0, 0, 9,
    0, 0, 0, 0, 0, 0, 0, 2, 0, 0, 0, 2, 0, 0, 0, 0, 0, 0, 0, 6, 0, 0, 0, 2, 0, 0, 0, 3, 0, 1, 1, 0,
    0, 0, 1, 0, 0, 0, 3, 0, 1, 0, 0, 0, 0, 2, 0, 0, 0, 0, 0, 0, 0, 1, 0, 0, 0, 2, 0, 1, 0, 0, 0, 1,
];

/// The digest of these bytes.
const DIGEST: [u8; 32] = [
    186, 165, 236, 252, 241, 168, 167, 62, 218, 60, 37, 201, 122, 225, 63, 56, 128, 68, 82, 208,
    92, 76, 211, 151, 220, 243, 154, 147, 10, 55, 125, 134,
];

/// The digest of these bytes with the last one changed.
const OTHER_DIGEST: [u8; 32] = [
    24, 78, 73, 44, 169, 138, 134, 72, 9, 94, 13, 76, 16, 96, 20, 197, 89, 81, 238, 72, 97, 91, 89,
    189, 129, 227, 44, 18, 114, 211, 136, 246,
];

/// Two processors, two locks with cells 0 and 1, a barrier, and a cell in no piece.
fn setup(alloc: Global) -> Result<Setup, MemFault> {
    let first = Piece {
        object: Object::Lock(Lock(0)),
        first: Cell(0),
        count: 1,
        owner: 0,
        phase: 0,
        period: 0,
    };
    let second = Piece {
        object: Object::Lock(Lock(1)),
        first: Cell(1),
        count: 1,
        owner: 0,
        phase: 0,
        period: 0,
    };
    Ok(Setup {
        procs: 2,
        locks: 2,
        bars: 1,
        cells: 3,
        bindings: Items::from_slice(alloc, &[first, second])?,
    })
}

/// Bytes with this digest behind them and so many zeros.
fn with_digest(
    alloc: Global,
    front: &[u8],
    digest: &[u8],
    zeros: u32,
) -> Result<Vec<u8>, MemFault> {
    let mut bytes = Vec::from_slice(alloc, front)?;
    bytes.extend_from_slice(digest)?;
    for _ in 0..zeros {
        bytes.push(0)?;
    }
    Ok(bytes)
}

/// The image of the front with one byte changed, and a digest that is right.
fn changed(alloc: Global, place: usize, byte: u8) -> Result<Vec<u8>, MemFault> {
    let mut front = FRONT;
    if place < front.len() {
        front[place] = byte;
    }
    let digest = Sha256::digest(front.as_slice());
    with_digest(alloc, front.as_slice(), digest.as_slice(), 171)
}

/// A place, the byte that is put there, and the place that is told.
const CHANGES: &[(usize, u8, u32)] = &[
    // `DSM9`, processor 200, and another number of processors.
    (3, 57, 0),
    (8, 200, 8),
    (9, 3, 9),
    // A thread's state of more bytes than there are: the field of its bytes is cut.
    (15, 1, 18),
    // Another number of cells, and a cell in no piece that isn't 0.
    (24, 4, 21),
    (48, 1, 41),
    // A marked line that there isn't.
    (56, 2, 53),
    // Another number of locks, and a hold that is no mode.
    (60, 3, 57),
    (65, 3, 65),
    // A grant of lock 2, and one with a line that isn't the lock's.
    (94, 2, 93),
    (107, 1, 104),
    // A turn that was seen of itself.
    (128, 1, 125),
    // A body that is a grant, a release of a lock whose home is another, a line that isn't the lock's,
    // and a shared release with a line.
    (137, 2, 137),
    (139, 1, 138),
    (152, 1, 149),
    (140, 0, 145),
    // A turn that isn't over the one before, and an arrival at barrier 1.
    (165, 5, 162),
    (167, 1, 167),
    // A record of lock 2, and a printed line with a newline.
    (201, 2, 200),
    (217, 10, 216),
    // A logged grant before the one that stands before it, and one of lock 2.
    (283, 2, 280),
    (285, 2, 284),
    // A record more than there is, and one less.
    (298, 2, 309),
    (298, 0, 299),
];

#[test]
fn an_image_is_read_and_written_again(rt: HostRuntime) -> Result<(), Fail> {
    let setup = setup(rt.alloc())?;
    let bytes = with_digest(rt.alloc(), FRONT.as_slice(), DIGEST.as_slice(), 171)?;
    let image = read_image(rt.alloc(), bytes.as_slice(), &setup)?;
    assert_eq!(rt; image.turn, 7);
    let mut out = Vec::new(rt.alloc());
    write_image(rt.alloc(), &image, &mut out)?;
    assert_eq!(rt; out.as_slice(), bytes.as_slice());
    Ok(())
}

#[test]
fn a_field_that_is_wrong_is_told_at_its_place(rt: HostRuntime) -> Result<(), Fail> {
    let setup = setup(rt.alloc())?;
    for (place, byte, told) in CHANGES {
        let bytes = changed(rt.alloc(), *place, *byte)?;
        let answer = read_image(rt.alloc(), bytes.as_slice(), &setup).err();
        assert_eq!(rt; answer, Some(LoadErr::BadImage { place: *told }));
    }
    Ok(())
}

#[test]
fn a_length_that_does_not_fit_is_told_at_4(rt: HostRuntime) -> Result<(), Fail> {
    let setup = setup(rt.alloc())?;
    let none: &[&[u8]] = &[&[68, 83, 77], &[68, 83, 77, 49, 255, 255, 255, 255], &FRONT];
    for bytes in none {
        let answer = read_image(rt.alloc(), bytes, &setup).err();
        assert_eq!(rt; answer, Some(LoadErr::BadImage { place: 4 }));
    }
    let mut front = FRONT;
    front[4..8].copy_from_slice(&[255; 4]);
    let bytes = with_digest(rt.alloc(), front.as_slice(), DIGEST.as_slice(), 171)?;
    let answer = read_image(rt.alloc(), bytes.as_slice(), &setup).err();
    assert_eq!(rt; answer, Some(LoadErr::BadImage { place: 4 }));
    Ok(())
}

#[test]
fn a_changed_byte_is_damage(rt: HostRuntime) -> Result<(), Fail> {
    let setup = setup(rt.alloc())?;
    let mut front = FRONT;
    front[308] = 0;
    let bytes = with_digest(rt.alloc(), front.as_slice(), DIGEST.as_slice(), 171)?;
    let answer = read_image(rt.alloc(), bytes.as_slice(), &setup).err();
    let kept = Digest(DIGEST);
    let found = Digest(OTHER_DIGEST);
    assert_eq!(rt; answer, Some(LoadErr::Damaged { kept, found }));
    Ok(())
}

/// How many zeros stand behind the digest, and the place that is told.
const ZEROS: &[(u32, u32)] = &[(170, 511), (172, 512), (0, 341)];

#[test]
fn other_zeros_are_told_at_the_first_place(rt: HostRuntime) -> Result<(), Fail> {
    let setup = setup(rt.alloc())?;
    for (zeros, told) in ZEROS {
        let bytes = with_digest(rt.alloc(), FRONT.as_slice(), DIGEST.as_slice(), *zeros)?;
        let answer = read_image(rt.alloc(), bytes.as_slice(), &setup).err();
        assert_eq!(rt; answer, Some(LoadErr::BadImage { place: *told }));
    }
    let mut bytes = with_digest(rt.alloc(), FRONT.as_slice(), DIGEST.as_slice(), 170)?;
    bytes.push(1)?;
    let answer = read_image(rt.alloc(), bytes.as_slice(), &setup).err();
    assert_eq!(rt; answer, Some(LoadErr::BadImage { place: 511 }));
    Ok(())
}
