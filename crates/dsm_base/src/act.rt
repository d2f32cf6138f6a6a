//! The units of a schedule.

ghost use Rattle.std.specs.Prelude.{◌≡◌};

use crate::errors::MemFault;
use crate::names::Proc;
use std::alloc::{AllocError, AllocFailed};

/// One unit of a schedule.
#[derive(Clone, Copy, Debug, PartialEq, Eq)]
pub enum Act {
    /// One turn of a processor's thread.
    Step(Proc),
    /// The oldest message from the first processor to the second is delivered.
    Deliver(Proc, Proc),
    /// A checkpoint image of the processor is taken.
    Ckpt(Proc),
    /// The next block of the processor's image under way is written; where all are, it is marked.
    Block(Proc),
    /// The processor crashes: what it holds in memory is lost, and so are messages from and to it.
    Crash(Proc),
    /// The next block is written with so many of its bytes, from 0 to 512, and the processor crashes.
    Torn(Proc, u32),
    /// The processor that is down starts again from its marked image, or from the beginning.
    Restart(Proc),
}

/// Why a schedule or a list of picks was refused. A `line` is a line of its text, counted from 1.
#[derive(Clone, Copy, Debug, PartialEq, Eq)]
pub enum SchedErr {
    /// There is no entry, or the first one doesn't begin with `procs`.
    NoProcs,
    /// The line is of no form that an entry has, or a second `procs`.
    BadEntry { line: u32 },
    /// A number of the entry isn't in its range.
    OutOfRange { line: u32 },
    /// The entry is a second crash, which can't be run yet.
    SecondCrash { line: u32 },
    /// The entry restarts a processor that isn't down.
    NoCrash { line: u32 },
    /// The entries stand for more than 500,000 units: so many.
    TooMany { count: u64 },
    /// The text has more than 4,194,304 bytes: so many.
    TooLong { bytes: u32 },
    /// The entry is right, and isn't one of those that can be run yet.
    NotBuilt { line: u32 },
    /// Out of memory.
    Memory,
}

impl From<MemFault> for SchedErr {
    ghost use Rattle.std.specs.Prelude.{◌≡◌};
    ghost use Rattle.dsm_base.specs.declared.act.SchedErr.TheVariants.{Memory};

    ghost from_gives = { λ _ e. e ≡ Memory };

    fn from(_error: MemFault) -> SchedErr {
        SchedErr::Memory
    }
}

impl From<AllocError> for SchedErr {
    ghost use Rattle.std.specs.Prelude.{◌≡◌};
    ghost use Rattle.dsm_base.specs.declared.act.SchedErr.TheVariants.{Memory};

    ghost from_gives = { λ _ e. e ≡ Memory };

    fn from(_error: AllocError) -> SchedErr {
        SchedErr::Memory
    }
}

impl<T: Drop> From<AllocFailed<T>> for SchedErr {
    ghost use Rattle.std.specs.Prelude.{◌≡◌};
    ghost use Rattle.dsm_base.specs.declared.act.SchedErr.TheVariants.{Memory};

    ghost from_gives = { λ _ e. e ≡ Memory };

    fn from(_error: AllocFailed<T>) -> SchedErr {
        SchedErr::Memory
    }
}
