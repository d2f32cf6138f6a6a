//! The lists that messages, images and logs are made of. Each is made from a `Vec` and seen as a list.

use crate::names::{Bar, Lock, Mode, Proc};
use crate::text::Text;
use sqlite_items::Items;

/// Processors in the order of their numbers.
pub type Procs = Items<Proc>;

/// A processor took a lock whose home it is itself: the turn, and the lock's version then.
#[derive(Clone, Copy, Debug, PartialEq, Eq)]
pub struct Record {
    pub turn: u32,
    pub lock: Lock,
    pub version: u32,
}

/// Records in the order of their turns.
pub type Records = Items<Record>;

/// A printed line that isn't out yet, with the turn that printed it.
#[derive(Debug, Drop)]
pub struct PendingLine {
    pub turn: u32,
    pub text: Text,
}

/// Lines that aren't out, in the order of their turns.
pub type Pending = Items<PendingLine>;

/// A grant that a home has sent, as its log keeps it: the turn in which the lock may be taken, how, and
/// at which version.
#[derive(Clone, Copy, Debug, PartialEq, Eq)]
pub struct LoggedGrant {
    pub turn: u32,
    pub lock: Lock,
    pub mode: Mode,
    pub version: u32,
}

/// Grants in the order of their turns.
pub type LoggedGrants = Items<LoggedGrant>;

/// An opening that a manager has sent, as its log keeps it: the turn in which the barrier may be
/// crossed, and the new epoch.
#[derive(Clone, Copy, Debug, PartialEq, Eq)]
pub struct LoggedOpening {
    pub turn: u32,
    pub bar: Bar,
    pub epoch: u32,
}

/// Openings in the order of their turns.
pub type LoggedOpenings = Items<LoggedOpening>;

/// How a processor stands at a lock that it has asked for: whether it was granted since, the turn of the
/// ask (0 where it was granted), and the version that its own copy holds.
#[derive(Clone, Copy, Debug, PartialEq, Eq)]
pub struct LockStand {
    pub lock: Lock,
    pub mode: Mode,
    pub granted: bool,
    pub turn: u32,
    pub have: u32,
}

/// One for each lock at which a processor stands, in the order of the locks.
pub type LockStands = Items<LockStand>;

/// How a processor stands at a barrier: how often it has arrived there, and how many openings it got.
#[derive(Clone, Copy, Debug, PartialEq, Eq)]
pub struct BarStand {
    pub bar: Bar,
    pub arrivals: u32,
    pub openings: u32,
}

/// One for each barrier, in the order of the barriers.
pub type BarStands = Items<BarStand>;

/// Numbers of turns.
pub type Turns = Items<u32>;

/// A lock with a number of it, as a version.
#[derive(Clone, Copy, Debug, PartialEq, Eq)]
pub struct LockNumber {
    pub lock: Lock,
    pub number: u32,
}

/// Locks with a number each, in the order of the locks.
pub type LockNumbers = Items<LockNumber>;

/// A barrier with a number of it, as of crossings.
#[derive(Clone, Copy, Debug, PartialEq, Eq)]
pub struct BarNumber {
    pub bar: Bar,
    pub number: u32,
}

/// Barriers with a number each, in the order of the barriers.
pub type BarNumbers = Items<BarNumber>;
