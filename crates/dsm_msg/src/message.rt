//! What processors send to each other.

use dsm_base::{
    Bar, BarNumbers, BarStands, Lock, LockNumbers, LockStands, LoggedGrants, LoggedOpenings, Mode,
    Pending, Proc, Records,
};
use dsm_lines::{ArrivalList, LineList, Versions};
use sqlite_items::Items;

/// What every message brings along.
#[derive(Debug, Drop)]
pub struct Carry {
    /// How many turns the sender had made.
    pub turn: u32,
    /// The greatest number of turns that the sender has seen of the receiver.
    pub seen: u32,
    /// The sender's records that it doesn't know to be held elsewhere.
    pub records: Records,
    /// The sender's lines that aren't safe to print yet.
    pub lines: Pending,
}

/// What a home or manager has sent to one processor, and the records of it that came.
#[derive(Debug, Drop)]
pub struct Logged {
    pub grants: LoggedGrants,
    pub openings: LoggedOpenings,
    pub records: Records,
}

/// All that a processor knows of another one that was restarted.
#[derive(Debug, Drop)]
pub struct Report {
    /// The grants that were sent to it.
    pub grants: LoggedGrants,
    /// The openings that were sent to it.
    pub openings: LoggedOpenings,
    /// Its records that are held here.
    pub records: Records,
    /// The versions that the sender made.
    pub versions: Versions,
    /// The arrivals that the sender made.
    pub arrivals: ArrivalList,
    /// How the sender stands at the receiver's locks.
    pub locks: LockStands,
    /// How the sender stands at the receiver's barriers.
    pub bars: BarStands,
}

/// What a message says.
#[derive(Debug, Drop)]
#[cycle(body)]
pub enum Body {
    /// To a lock's home: the sender asks for the lock, of which its copy holds this version.
    Req {
        lock: Lock,
        mode: Mode,
        have: u32,
    },
    /// From a lock's home: the receiver may take the lock in this turn, at this version, with the lines
    /// that are newer than its own.
    Grant {
        lock: Lock,
        mode: Mode,
        turn: u32,
        version: u32,
        lines: LineList,
    },
    /// To a lock's home: the sender gives the lock back. An exclusive hold has made this version, with
    /// the lines that were stored to in it; a shared one has no lines.
    Release {
        lock: Lock,
        mode: Mode,
        version: u32,
        lines: LineList,
    },
    /// To a barrier's manager: the sender has arrived, and ends this epoch.
    Arrive {
        bar: Bar,
        epoch: u32,
        lines: LineList,
    },
    /// From a barrier's manager: all have arrived, and this epoch begins, with the lines of the others.
    Opened {
        bar: Bar,
        epoch: u32,
        lines: LineList,
    },
    /// Asks for an `Ack`, so that the sender learns which of its records are held.
    Note,
    Ack,
    /// From a processor that was restarted: what it had sent to the receiver.
    Resync {
        bodies: Bodies,
    },
    /// The answer to a `Resync`.
    Report(Report),
    /// The sender has marked an image of this turn: what came before it is not needed again.
    Pruned {
        turn: u32,
        versions: LockNumbers,
        crossings: BarNumbers,
    },
}

/// A body that was sent in this turn.
#[derive(Debug, Drop)]
#[cycle(body)]
pub struct TurnBody {
    pub turn: u32,
    pub body: Body,
}

/// Bodies in the order of their turns.
pub type Bodies = Items<TurnBody>;

/// A message of one processor to another.
#[derive(Debug, Drop)]
pub struct Msg {
    pub from: Proc,
    pub to: Proc,
    pub carry: Carry,
    pub body: Body,
}

/// Messages in the order in which they are sent.
pub type Sends = Items<Msg>;
