//! Traces: what happened in each unit.

use dsm_base::{Label, Proc, Text};
use dsm_lines::LineList;
use dsm_msg::Msg;
use sqlite_items::Items;

/// A message with its number; messages are numbered from 1 in the order of sending.
#[derive(Debug, Drop)]
pub struct Letter {
    pub number: u32,
    pub msg: Msg,
}

/// One thing that happened.
#[derive(Debug, Drop)]
pub enum Rec {
    /// A turn of a processor, numbered from 1, with the lines that a take or a crossing brought.
    Turn {
        proc: Proc,
        turn: u32,
        label: Label,
        lines: LineList,
    },
    /// A message was sent.
    Sent {
        number: u32,
        msg: Msg,
    },
    /// The message with this number was delivered.
    Delivered {
        number: u32,
    },
    /// The message with this number was lost: its receiver was down, or its sender or receiver crashed.
    Dropped {
        number: u32,
    },
    /// The line that a processor printed in this turn went out.
    Out {
        proc: Proc,
        turn: u32,
        text: Text,
    },
    /// An image of a processor was taken after this turn; it has so many blocks.
    Begun {
        proc: Proc,
        turn: u32,
        blocks: u32,
    },
    /// A block of the image under way was written.
    Wrote {
        proc: Proc,
        block: u32,
    },
    /// A block of the image under way was written with so many of its bytes, at a crash.
    Torn {
        proc: Proc,
        block: u32,
        kept: u32,
    },
    /// The image that was taken after this turn is marked.
    Marked {
        proc: Proc,
        turn: u32,
    },
    /// The image under way was given up.
    GaveUp {
        proc: Proc,
    },
    /// A processor crashed.
    Crashed {
        proc: Proc,
    },
    /// A processor was restarted as it was after this turn.
    Reloaded {
        proc: Proc,
        turn: u32,
    },
    /// A processor's replay ended with this turn.
    Replayed {
        proc: Proc,
        turn: u32,
    },
}

/// The records of one unit in their order.
pub type Records = Items<Rec>;

/// What happened in one unit; units are numbered from 1.
#[derive(Debug, Drop)]
pub struct Group {
    pub unit: u32,
    pub records: Records,
}
