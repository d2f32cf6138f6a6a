//! What words ask for.

use std::alloc::{AllocError, AllocFailed};

/// What the words of a command line ask for. Files are told by their names as they were given.
#[derive(Debug, Drop)]
pub enum Command {
    /// `run PROGRAM SCHEDULE [--trace] [--state]`: a run of a program by a schedule.
    Run {
        program: String,
        schedule: String,
        trace: bool,
        state: bool,
    },
    /// `check PROGRAM --procs N`: a check of a program for 2 to 16 processors.
    Check {
        program: String,
        procs: u8,
    },
    /// `plain PROGRAM PICKS`: a run of a program over one memory, by a list of picks.
    Plain {
        program: String,
        picks: String,
    },
    /// `load SEED`: the large job that is made from a number of at most 999,999.
    Load {
        seed: u32,
    },
}

/// Why words are no command.
#[derive(Clone, Copy, Debug, PartialEq, Eq)]
pub enum WordsErr {
    /// They are those of no command.
    Refused,
    /// Out of memory.
    Memory,
}

impl From<AllocError> for WordsErr {
    ghost use Rattle.std.specs.Prelude.{◌≡◌};
    ghost use Rattle.dsm_command.specs.declared.command.WordsErr.TheVariants.{Memory};

    ghost from_gives = { λ _ e. e ≡ Memory };

    fn from(_error: AllocError) -> WordsErr {
        WordsErr::Memory
    }
}

impl<T: Drop> From<AllocFailed<T>> for WordsErr {
    ghost use Rattle.std.specs.Prelude.{◌≡◌};
    ghost use Rattle.dsm_command.specs.declared.command.WordsErr.TheVariants.{Memory};

    ghost from_gives = { λ _ e. e ≡ Memory };

    fn from(_error: AllocFailed<T>) -> WordsErr {
        WordsErr::Memory
    }
}
