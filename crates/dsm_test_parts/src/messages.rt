//! Messages and their bytes.

use dsm_base::{Lock, Mode, Proc};
use dsm_msg::{Body, Carry, Msg, MsgErr, read_msg, write_msg};
use sqlite_items::Items;
use std::fmt::InlineText;
use std::test::Fail;

/// Processor 1 asks processor 0 for lock 0 in its first turn.
const REQUEST: [u8; 26] = [
    1, 1, 0, 0, 0, 0, 1, 0, 0, 0, 0, 0, 0, 0, 0, 0, 0, 0, 0, 0, 0, 1, 0, 0, 0, 0,
];

/// A message of each kind.
const KINDS: &[&[u8]] = &[
    &REQUEST,
    // A grant with a line of two values behind a carry with two records and a printed line.
    &[
        2, 0, 1, 0, 0, 0, 9, 0, 0, 0, 4, 0, 0, 0, 2, 0, 0, 0, 3, 0, 2, 0, 0, 0, 0, 0, 0, 0, 7, 1,
        0, 0, 0, 0, 5, 0, 0, 0, 1, 0, 0, 0, 8, 0, 2, 104, 105, 0, 5, 0, 0, 0, 0, 6, 0, 0, 0, 1, 0,
        0, 0, 1, 0, 0, 0, 3, 2, 0, 0, 0, 0, 0, 0, 0, 5, 255, 255, 255, 255, 255, 255, 255, 254,
    ],
    // A release of a shared hold, without lines.
    &[
        3, 2, 1, 0, 0, 0, 4, 0, 0, 0, 0, 0, 0, 0, 0, 0, 0, 0, 0, 0, 3, 0, 0, 0, 0, 6, 0, 0, 0, 0,
    ],
    // An arrival, and an opening.
    &[
        4, 15, 0, 0, 0, 0, 2, 0, 0, 0, 0, 0, 0, 0, 0, 0, 0, 0, 0, 63, 0, 0, 0, 0, 0, 0, 0, 0,
    ],
    &[
        5, 0, 15, 0, 0, 0, 2, 0, 0, 0, 0, 0, 0, 0, 0, 0, 0, 0, 0, 63, 0, 0, 0, 1, 0, 0, 0, 0,
    ],
    &[6, 0, 1, 0, 0, 0, 5, 0, 0, 0, 0, 0, 0, 0, 0, 0, 0, 0, 0],
    &[7, 1, 0, 0, 0, 0, 5, 0, 0, 0, 5, 0, 0, 0, 0, 0, 0, 0, 0],
    // A request and an arrival again.
    &[
        8, 1, 0, 0, 0, 0, 5, 0, 0, 0, 5, 0, 0, 0, 0, 0, 0, 0, 0, 0, 0, 0, 2, 0, 0, 0, 1, 1, 0, 0,
        0, 0, 0, 0, 0, 0, 0, 0, 4, 4, 2, 0, 0, 0, 0, 0, 0, 0, 0,
    ],
    // A report with a member in each list; of the standings one is granted and one isn't.
    &[
        9, 1, 0, 0, 0, 0, 5, 0, 0, 0, 5, 0, 0, 0, 0, 0, 0, 0, 0, 0, 0, 0, 1, 0, 0, 0, 2, 0, 1, 1,
        0, 0, 0, 3, 0, 0, 0, 1, 0, 0, 0, 4, 2, 0, 0, 0, 1, 0, 0, 0, 1, 0, 0, 0, 6, 0, 0, 0, 0, 0,
        2, 0, 0, 0, 2, 0, 1, 0, 0, 0, 1, 0, 0, 0, 0, 0, 1, 0, 0, 0, 2, 0, 0, 0, 0, 0, 0, 0, 1, 2,
        0, 0, 0, 0, 0, 0, 0, 0, 0, 0, 0, 2, 0, 0, 1, 1, 0, 0, 0, 0, 0, 0, 0, 2, 0, 2, 0, 0, 0, 0,
        0, 7, 0, 0, 0, 0, 0, 0, 0, 1, 0, 0, 0, 0, 3, 0, 0, 0, 2,
    ],
    &[
        10, 1, 0, 0, 0, 0, 5, 0, 0, 0, 5, 0, 0, 0, 0, 0, 0, 0, 0, 0, 0, 0, 8, 0, 0, 0, 2, 0, 0, 0,
        0, 0, 3, 0, 1, 0, 0, 0, 0, 0, 0, 0, 1, 0, 0, 0, 0, 2,
    ],
];

/// Bytes that are no message, and why.
const REFUSED: &[(&[u8], MsgErr)] = &[
    (&[], MsgErr::Short),
    (&[0], MsgErr::BadKind(0)),
    (&[11, 200], MsgErr::BadKind(11)),
    // A processor's number, and the sender itself.
    (&[6, 16], MsgErr::BadField { place: 1 }),
    (&[6, 1, 1], MsgErr::BadField { place: 2 }),
    // A mode.
    (
        &[
            1, 1, 0, 0, 0, 0, 1, 0, 0, 0, 0, 0, 0, 0, 0, 0, 0, 0, 0, 0, 0, 2, 0, 0, 0, 0,
        ],
        MsgErr::BadField { place: 21 },
    ),
    // Two records of one turn.
    (
        &[
            6, 1, 0, 0, 0, 0, 9, 0, 0, 0, 0, 0, 0, 0, 2, 0, 0, 0, 3, 0, 0, 0, 0, 0, 0, 0, 0, 0, 3,
        ],
        MsgErr::BadField { place: 25 },
    ),
    // A printed line of 257 bytes, and one with a newline.
    (
        &[
            6, 1, 0, 0, 0, 0, 9, 0, 0, 0, 0, 0, 0, 0, 0, 0, 0, 0, 1, 0, 0, 0, 3, 1, 1,
        ],
        MsgErr::BadField { place: 23 },
    ),
    (
        &[
            6, 1, 0, 0, 0, 0, 9, 0, 0, 0, 0, 0, 0, 0, 0, 0, 0, 0, 1, 0, 0, 0, 3, 0, 2, 104, 10,
        ],
        MsgErr::BadField { place: 25 },
    ),
    // A shared release with a line, and a line without values.
    (
        &[
            3, 2, 1, 0, 0, 0, 4, 0, 0, 0, 0, 0, 0, 0, 0, 0, 0, 0, 0, 0, 3, 0, 0, 0, 0, 6, 0, 0, 0,
            1,
        ],
        MsgErr::BadField { place: 26 },
    ),
    (
        &[
            4, 2, 1, 0, 0, 0, 4, 0, 0, 0, 0, 0, 0, 0, 0, 0, 0, 0, 0, 0, 0, 0, 0, 0, 0, 0, 0, 1, 0,
            0, 0, 0, 0,
        ],
        MsgErr::BadField { place: 32 },
    ),
    // A line of nine values, and a line with the number of the one before.
    (
        &[
            4, 2, 1, 0, 0, 0, 4, 0, 0, 0, 0, 0, 0, 0, 0, 0, 0, 0, 0, 0, 0, 0, 0, 0, 0, 0, 0, 1, 0,
            0, 0, 0, 9,
        ],
        MsgErr::BadField { place: 32 },
    ),
    (
        &[
            4, 2, 1, 0, 0, 0, 4, 0, 0, 0, 0, 0, 0, 0, 0, 0, 0, 0, 0, 0, 0, 0, 0, 0, 0, 0, 0, 2, 0,
            0, 0, 5, 1, 0, 0, 0, 0, 0, 0, 0, 0, 0, 0, 0, 5,
        ],
        MsgErr::BadField { place: 41 },
    ),
    // Two bodies of one turn in a resync.
    (
        &[
            8, 1, 0, 0, 0, 0, 5, 0, 0, 0, 5, 0, 0, 0, 0, 0, 0, 0, 0, 0, 0, 0, 2, 0, 0, 0, 1, 1, 0,
            0, 0, 0, 0, 0, 0, 0, 0, 0, 1,
        ],
        MsgErr::BadField { place: 35 },
    ),
    // Counts of records and of lines that no memory could hold: the bytes end first.
    (
        &[6, 1, 0, 0, 0, 0, 9, 0, 0, 0, 0, 255, 255, 255, 255],
        MsgErr::Short,
    ),
    (
        &[
            4, 2, 1, 0, 0, 0, 4, 0, 0, 0, 0, 0, 0, 0, 0, 0, 0, 0, 0, 0, 0, 0, 0, 0, 255, 255, 255,
            255,
        ],
        MsgErr::Short,
    ),
    // A kind that a resync doesn't bring again.
    (
        &[
            8, 1, 0, 0, 0, 0, 5, 0, 0, 0, 5, 0, 0, 0, 0, 0, 0, 0, 0, 0, 0, 0, 1, 0, 0, 0, 1, 2,
        ],
        MsgErr::BadField { place: 27 },
    ),
    // The request with one byte more, and a note with two.
    (
        &[
            1, 1, 0, 0, 0, 0, 1, 0, 0, 0, 0, 0, 0, 0, 0, 0, 0, 0, 0, 0, 0, 1, 0, 0, 0, 0, 0,
        ],
        MsgErr::Rest { count: 1 },
    ),
    (
        &[
            6, 0, 1, 0, 0, 0, 5, 0, 0, 0, 0, 0, 0, 0, 0, 0, 0, 0, 0, 6, 0,
        ],
        MsgErr::Rest { count: 2 },
    ),
];

#[test]
fn a_request_has_its_26_bytes(rt: HostRuntime) -> Result<(), Fail> {
    let carry = Carry {
        turn: 1,
        seen: 0,
        records: Items::new(rt.alloc()),
        lines: Items::new(rt.alloc()),
    };
    let body = Body::Req {
        lock: Lock(0),
        mode: Mode::Excl,
        have: 0,
    };
    let msg = Msg {
        from: Proc(1),
        to: Proc(0),
        carry,
        body,
    };
    let mut out = Vec::new(rt.alloc());
    write_msg(&msg, &mut out)?;
    assert_eq!(rt; out.as_slice(), REQUEST.as_slice());
    Ok(())
}

#[test]
fn each_kind_is_read_and_written_again(rt: HostRuntime) -> Result<(), Fail> {
    for bytes in KINDS {
        let msg = read_msg(rt.alloc(), bytes)?;
        let mut out = Vec::new(rt.alloc());
        write_msg(&msg, &mut out)?;
        assert_eq!(rt; out.as_slice(), *bytes);
    }
    Ok(())
}

#[test]
fn each_kind_cut_is_short(rt: HostRuntime) {
    for bytes in KINDS {
        for len in 0..bytes.len() {
            assert_eq!(rt;
                read_msg(rt.alloc(), &bytes[..len]).err(),
                Some(MsgErr::Short)
            );
        }
    }
}

#[test]
fn what_is_no_message_is_refused(rt: HostRuntime) {
    for (bytes, why) in REFUSED {
        assert_eq!(rt; read_msg(rt.alloc(), bytes).err(), Some(*why));
    }
}

fn text(error: MsgErr) -> InlineText<32> {
    InlineText::of(error)
}

#[test]
fn refusals_have_texts(rt: HostRuntime) {
    assert_eq!(rt; text(MsgErr::Short).as_str(), "short");
    assert_eq!(rt; text(MsgErr::BadKind(11)).as_str(), "bad kind 11");
    assert_eq!(rt;
        text(MsgErr::BadField { place: 21 }).as_str(),
        "bad field at 21"
    );
    assert_eq!(rt;
        text(MsgErr::Rest { count: 1 }).as_str(),
        "1 bytes too many"
    );
    assert_eq!(rt; text(MsgErr::Memory).as_str(), "out of memory");
}
