//! What an image holds.

use dsm_base::{Pending, Proc, Records, Text, Turns};
use dsm_image_parts::{HomeLocks, Logs, Outboxes, OwnBars, OwnLocks, Values};
use dsm_lines::{ArrivalList, LineNumbers, MailGrants, MailOpenings, Versions};

/// A checkpoint image: what a processor goes on from after a crash.
#[derive(Debug, Drop)]
pub struct Image {
    pub me: Proc,
    pub procs: u8,
    /// How many turns it had made.
    pub turn: u32,
    /// The saved state of its thread.
    pub thread: Text,
    /// The values of all shared cells.
    pub copy: Values,
    /// The lines that were stored to since they were last given.
    pub marked: LineNumbers,
    pub locks: OwnLocks,
    pub bars: OwnBars,
    /// The grants and openings in its mailbox.
    pub grants: MailGrants,
    pub openings: MailOpenings,
    /// The greatest turn that it has seen of each processor.
    pub seen: Turns,
    /// What each other processor is still to be told.
    pub outbox: Outboxes,
    /// Up to which turn its records are known to be held.
    pub held: u32,
    pub records: Records,
    pub lines: Pending,
    /// The versions that it made.
    pub versions: Versions,
    /// The arrivals that it made.
    pub arrivals: ArrivalList,
    /// The locks whose home it is.
    pub homes: HomeLocks,
    /// What it has logged, as a home and manager, for each other processor.
    pub logs: Logs,
}

/// The first fields of an image.
#[derive(Debug, Drop)]
pub(crate) struct Head {
    pub me: Proc,
    pub procs: u8,
    pub turn: u32,
    pub thread: Text,
}

/// A processor's own cells, marks, locks and barriers.
#[derive(Debug, Drop)]
pub(crate) struct Own {
    pub copy: Values,
    pub marked: LineNumbers,
    pub locks: OwnLocks,
    pub bars: OwnBars,
}

/// The mailbox, the turns that were seen, and the outboxes.
#[derive(Debug, Drop)]
pub(crate) struct Mail {
    pub grants: MailGrants,
    pub openings: MailOpenings,
    pub seen: Turns,
    pub outbox: Outboxes,
}

/// The records that aren't known to be held, and the lines that aren't safe.
#[derive(Debug, Drop)]
pub(crate) struct Tail {
    pub held: u32,
    pub records: Records,
    pub lines: Pending,
}

/// The versions and arrivals that were made.
#[derive(Debug, Drop)]
pub(crate) struct Made {
    pub versions: Versions,
    pub arrivals: ArrivalList,
}

/// What a processor keeps as a home and manager.
#[derive(Debug, Drop)]
pub(crate) struct Served {
    pub homes: HomeLocks,
    pub logs: Logs,
}
