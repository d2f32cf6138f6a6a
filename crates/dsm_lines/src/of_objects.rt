//! Lists of what brings lines along: versions and arrivals, grants and openings.

use crate::list::LineList;
use dsm_base::{Bar, Lock, Mode, Proc};
use sqlite_items::Items;

/// A version of a lock with the lines that were stored to in the hold that made it.
#[derive(Debug, Drop)]
pub struct Version {
    pub lock: Lock,
    pub version: u32,
    pub lines: LineList,
}

/// Versions that a processor made, in the order of the locks and, of one lock, of the versions.
pub type Versions = Items<Version>;

/// An arrival at a barrier with the lines that were stored to in the epoch that it ends.
#[derive(Debug, Drop)]
pub struct Arrival {
    pub bar: Bar,
    pub epoch: u32,
    pub lines: LineList,
}

/// Arrivals that a processor made, in the order of the barriers and, of one barrier, of the epochs.
pub type ArrivalList = Items<Arrival>;

/// A grant that now goes out: to whom, and the turn in which the lock may be taken.
#[derive(Debug, Drop)]
pub struct Grant {
    pub to: Proc,
    pub turn: u32,
    pub lock: Lock,
    pub mode: Mode,
    pub version: u32,
    pub lines: LineList,
}

/// Grants in the order in which they go out.
pub type Grants = Items<Grant>;

/// An opening that now goes out: to whom, the turn in which the barrier may be crossed, and the new
/// epoch.
#[derive(Debug, Drop)]
pub struct Opening {
    pub to: Proc,
    pub turn: u32,
    pub bar: Bar,
    pub epoch: u32,
    pub lines: LineList,
}

/// Openings in the order in which they go out.
pub type Openings = Items<Opening>;

/// A grant in the mailbox of the processor that it is for.
#[derive(Debug, Drop)]
pub struct MailGrant {
    pub turn: u32,
    pub lock: Lock,
    pub mode: Mode,
    pub version: u32,
    pub lines: LineList,
}

/// Grants in the order of their turns.
pub type MailGrants = Items<MailGrant>;

/// An opening in the mailbox of the processor that it is for.
#[derive(Debug, Drop)]
pub struct MailOpening {
    pub turn: u32,
    pub bar: Bar,
    pub epoch: u32,
    pub lines: LineList,
}

/// Openings in the order of their turns.
pub type MailOpenings = Items<MailOpening>;
