//! Arrivals that wait for their barrier to open.

use dsm_lines::LineList;
use sqlite_items::Items;

/// An arrival at a barrier that waits: the turn in which the processor would cross the barrier, and
/// the lines that it stored to in the epoch that the arrival ends.
#[derive(Debug, Drop)]
pub struct Arrived {
    pub turn: u32,
    pub lines: LineList,
}

/// Arrivals of one processor that wait, the oldest first.
pub type Waiting = Items<Arrived>;
