//! How a call ends.

ghost use Rattle.std.specs.Prelude.{◌≡◌, []};
ghost use Rattle.dsm_top.specs.Statuses.{number_of_status};

use dsm_base::{Finished, ReadErr, SchedErr};
use dsm_records::Trace;
use dsm_syntax::ProgErr;
use std::alloc::Global;

/// How a call ended.
#[derive(Debug, Drop)]
pub enum Status {
    /// The schedule, or the list of picks, is used up and every thread has ended; or a program is accepted.
    Done,
    /// It is used up, every thread has ended or stopped, and some have stopped.
    Stopped,
    /// It is used up, and a thread has neither ended nor stopped.
    Unfinished,
    /// The program is refused.
    ProgramRefused(ProgErr),
    /// The schedule or the list of picks is refused.
    ScheduleRefused(SchedErr),
    /// The words are no command, or one that isn't built.
    WordsRefused,
    /// A file could not be read: 0 is the first that the words name, 1 the second.
    ReadFault(u8),
    /// Not all that was to be written could be.
    WriteFault,
    /// Out of memory.
    Memory,
}

impl From<Finished> for Status {
    ghost use Rattle.dsm_top.specs.Statuses.{status_of_finished};

    ghost from_gives = { λ finished status. status ≡ status_of_finished finished };

    /// The status of a run that went through its schedule or its picks.
    fn from(finished: Finished) -> Status {
        match finished {
            Finished::Done => Status::Done,
            Finished::Stopped => Status::Stopped,
            Finished::Unfinished => Status::Unfinished,
        }
    }
}

impl From<ProgErr> for Status {
    ghost use Rattle.dsm_top.specs.Statuses.{status_of_program};

    ghost from_gives = { λ error status. status ≡ status_of_program error };

    fn from(error: ProgErr) -> Status {
        match error {
            ProgErr::Memory => Status::Memory,
            error => Status::ProgramRefused(error),
        }
    }
}

impl From<SchedErr> for Status {
    ghost use Rattle.dsm_top.specs.Statuses.{status_of_schedule};

    ghost from_gives = { λ error status. status ≡ status_of_schedule error };

    fn from(error: SchedErr) -> Status {
        match error {
            SchedErr::Memory => Status::Memory,
            error => Status::ScheduleRefused(error),
        }
    }
}

impl From<ReadErr> for Status {
    ghost use Rattle.dsm_top.specs.Statuses.{status_of_write};

    ghost from_gives = { λ error status. status ≡ status_of_write error };

    /// The status for what kept the sink from taking all.
    fn from(error: ReadErr) -> Status {
        match error {
            ReadErr::Failed => Status::WriteFault,
            ReadErr::Memory => Status::Memory,
        }
    }
}

impl Status {
    /// The exit status.
    pub fn number(&self) -> u8
        ensures { result ≡ number_of_status self.now }
    {
        match self {
            Status::Done => 0,
            Status::Stopped => 1,
            Status::Unfinished => 2,
            Status::ProgramRefused(_) => 3,
            Status::ScheduleRefused(_) => 4,
            Status::WordsRefused => 5,
            Status::ReadFault(_) => 6,
            Status::WriteFault => 7,
            Status::Memory => 10,
        }
    }
}

/// What a call answers.
#[derive(Debug, Drop)]
pub struct Report {
    pub status: Status,
    /// What happened in this call's run; empty where no run began.
    pub trace: Trace,
    /// How many units of the schedule, or how many picks, were applied.
    pub units: u32,
}

impl Report {
    /// What a call answers that leaves no trace.
    pub(crate) fn untraced(alloc: Global, status: Status, units: u32) -> Report
        ensures { result ≡ record { status = status; trace = []; units = units } }
    {
        Report {
            status,
            trace: Trace::new(alloc),
            units,
        }
    }
}
