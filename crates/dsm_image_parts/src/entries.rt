//! What the lists of an image are made of.

use dsm_base::{Lock, Mode, Proc};
use dsm_msg::{Bodies, Logged};
use sqlite_items::Items;

/// Values of cells.
pub type Values = Items<i64>;

/// How a processor stands at one lock: the version that its copy holds, how it holds the lock, and how
/// it has asked for it.
#[derive(Clone, Copy, Debug, PartialEq, Eq)]
pub struct OwnLock {
    pub have: u32,
    pub held: Option<Mode>,
    pub asked: Option<Mode>,
}

/// One for each lock, in the order of the locks.
pub type OwnLocks = Items<OwnLock>;

/// How often a processor has arrived at one barrier, and crossed it.
#[derive(Clone, Copy, Debug, PartialEq, Eq)]
pub struct OwnBar {
    pub arrivals: u32,
    pub crossings: u32,
}

/// One for each barrier, in the order of the barriers.
pub type OwnBars = Items<OwnBar>;

/// What one processor is still to be told by messages: bodies that ask for a lock, give it back or
/// arrive at a barrier.
#[derive(Debug, Drop)]
pub struct Outbox {
    pub proc: Proc,
    pub bodies: Bodies,
}

/// One for each other processor, in the order of their numbers.
pub type Outboxes = Items<Outbox>;

/// A line at its lock's home: the version with which it was last applied, and its values.
#[derive(Debug, Drop)]
pub struct SavedLine {
    pub stamp: u32,
    pub values: Values,
}

/// The lines of one lock, in the order of their numbers.
pub type HomeLines = Items<SavedLine>;

/// A lock at its home, with its version and its lines.
#[derive(Debug, Drop)]
pub struct SavedLock {
    pub lock: Lock,
    pub version: u32,
    pub lines: HomeLines,
}

/// The locks with one home, in the order of their numbers.
pub type HomeLocks = Items<SavedLock>;

/// What a home or manager has logged for one processor.
#[derive(Debug, Drop)]
pub struct ProcLog {
    pub proc: Proc,
    pub logged: Logged,
}

/// One for each other processor, in the order of their numbers.
pub type Logs = Items<ProcLog>;
