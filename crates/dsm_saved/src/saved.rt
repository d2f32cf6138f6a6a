//! What a saved thread holds.

use sqlite_items::Items;

/// Values of private cells, or of slots and operands.
pub type Values = Items<i64>;

/// A function that is under way: its number, the place that it is at, and its values: the slots by their
/// numbers, and behind them the operands, the last one on top.
#[derive(Debug, Drop)]
pub struct SavedFrame {
    pub function: u16,
    pub place: u32,
    pub values: Values,
}

/// Frames from main inwards.
pub type SavedFrames = Items<SavedFrame>;

/// A saved thread. `way` is 0 where it goes on, 1 where it has ended and 2 where it has stopped; `fault`
/// is the number of the fault and `line` the line at which it has stopped, both 0 where it has not.
/// `own` has the private cells. There are frames only where it goes on, and then there is one.
#[derive(Debug, Drop)]
pub struct Saved {
    pub way: u8,
    pub fault: u8,
    pub line: u32,
    pub own: Values,
    pub frames: SavedFrames,
}
