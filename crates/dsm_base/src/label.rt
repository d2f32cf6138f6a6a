//! What a thread wants next, and what a turn of it shows.

use crate::names::{Bar, Cell, Fault, Lock, Mode};
use crate::text::Text;

/// What one turn of a thread shows.
#[derive(Debug, Drop)]
pub enum Label {
    /// A step that touches nothing shared.
    Quiet,
    /// A load of a shared cell, with the value that it had.
    Load(Cell, i64),
    /// A store to a shared cell, with the value that it has from now on.
    Store(Cell, i64),
    /// An ask for a lock.
    Ask(Lock, Mode),
    /// The lock is taken, with its version.
    Take(Lock, Mode, u32),
    /// The lock is given back.
    Give(Lock),
    /// The thread has come to a barrier.
    Arrive(Bar),
    /// The thread crosses the barrier, into this epoch.
    Cross(Bar, u32),
    /// A line is printed.
    Line(Text),
    /// The thread has ended.
    End,
    /// The thread has stopped for a fault, at a line of the source.
    Stop(Fault, u32),
}

/// The labelled step that a thread comes to next. A last `u32` is the line of the source.
#[derive(Clone, Copy, Debug, PartialEq, Eq)]
pub enum Want {
    Quiet,
    Load(Cell, u32),
    Store(Cell, i64, u32),
    Ask(Lock, Mode, u32),
    Take(Lock, Mode),
    Give(Lock, u32),
    Arrive(Bar),
    Cross(Bar),
    /// A line; the thread tells its text.
    Line,
    End,
    Stop(Fault, u32),
    /// The thread has ended or stopped.
    Over,
}

/// How a thread came to be over.
#[derive(Clone, Copy, Debug, PartialEq, Eq)]
pub enum Ending {
    /// Its `main` has returned.
    Ended,
    /// It has stopped for a fault.
    Stopped,
}
