//! For what threads have stopped.

ghost use Rattle.std.specs.Prelude.{◌≡◌};
ghost use Rattle.dsm_state.specs.Stops.{stop_told, stop_after, last_stop};

use dsm_base::{Fault, Label, Proc};
use dsm_net::{Group, Rec};

/// The fault for which a thread has stopped, and the line of the program's text.
#[derive(Clone, Copy, Debug, PartialEq, Eq)]
pub struct Stop {
    pub fault: Fault,
    pub line: u32,
}

/// The stop that a record tells of, if it is one of this processor.
fn stop_told(proc: Proc, one: &Rec) -> Option<Stop>
    ensures { result ≡ stop_told proc.0 one.now }
{
    match one {
        Rec::Turn {
            proc: by,
            label: Label::Stop(fault, line),
            ..
        } if by.0 == proc.0 => Some(Stop {
            fault: *fault,
            line: *line,
        }),
        _ => None,
    }
}

/// The last stop of a processor in records, and else the one before them.
fn stop_after(proc: Proc, before: Option<Stop>, records: &[Rec]) -> Option<Stop>
    ensures { result ≡ stop_after proc.0 before records.now }
{
    let mut stop = before;
    for record in records {
        stop = stop_told(proc, record).or(stop);
    }
    stop
}

/// The last stop of a processor in groups of records, and else the one before them.
pub fn last_stop(proc: Proc, before: Option<Stop>, groups: &[Group]) -> Option<Stop>
    ensures { result ≡ last_stop proc.0 before groups.now }
{
    let mut stop = before;
    for group in groups {
        stop = stop_after(proc, stop, group.records.as_slice());
    }
    stop
}
