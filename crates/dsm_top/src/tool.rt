//! The call that the program makes.

ghost use Rattle.std.specs.Prelude.{◌≡◌, map, string_bytes};
ghost use Rattle.dsm_command.specs.Commands.{command_of};
ghost use Rattle.dsm_top.specs.CommandInCode.{told_command};
ghost use Rattle.dsm_top.specs.Prepared.{IsReady, IsPrepared};
ghost use Rattle.dsm_top.specs.Ended.{left_by, Refused, Ended};
ghost use Rattle.dsm_top.specs.Refusals.{Given, given_by, RefusesOrMemory};

use crate::check::answer_check;
use crate::message::message;
use crate::output::put_all;
use crate::plain::run_picks;
use crate::prepare::{Prepared, prepare};
use crate::run::run;
use crate::status::{Report, Status};
use dsm_base::{Files, Sink};
use dsm_command::{Command, WordsErr, read_command};
use std::alloc::Global;

/// Writes the message of a refusal; out of memory has none.
fn refuse<K: Sink>(alloc: Global, command: Option<&Command>, status: Status, out: &mut K) -> Report
    ensures { (given : Given) → given.command ≡ told_command command.entry →
        RefusesOrMemory given status →
        Refused given (left_by K.sink_holds K.sink_faults out.old out.new result) result.status }
{
    if let Status::Memory = status {
        return Report::untraced(alloc, status, 0);
    }
    let Ok(line) = message(alloc, command, &status) else {
        return Report::untraced(alloc, Status::Memory, 0);
    };
    match put_all(out, line.as_slice()) {
        Ok(()) => Report::untraced(alloc, status, 0),
        Err(error) => Report::untraced(alloc, Status::from(error), 0),
    }
}

/// Does what a command is for.
fn perform<K: Sink>(alloc: Global, prepared: Prepared, out: &mut K) -> Report
    requires { IsReady prepared }
    ensures { (given : Given) → IsPrepared given.files given.command prepared →
        Ended given (left_by K.sink_holds K.sink_faults out.old out.new result) result.status }
{
    match prepared {
        Prepared::Run(prepared) => run(alloc, prepared, out),
        Prepared::Check => answer_check(alloc, out),
        Prepared::Plain(prepared) => run_picks(alloc, prepared, out),
    }
}

/// Does what the words ask for: `run PROGRAM SCHEDULE` runs a program by a schedule, `check PROGRAM
/// --procs N` tells whether a program is accepted for so many processors, and `plain PROGRAM PICKS` runs
/// a program over one memory by a list of picks. Puts the lines that the program prints into `out`, or
/// `ok`, or the one line that says why nothing ran.
pub fn run_tool<F: Files, K: Sink>(
    alloc: Global,
    words: &Vec<String>,
    files: &mut F,
    out: &mut K,
) -> Report
    ensures ended { Ended
        (given_by F.files_hold F.files_faults (command_of (map string_bytes words.now.items))
        files.old files.new)
        (left_by K.sink_holds K.sink_faults out.old out.new result) result.status }
{
    let command = match read_command(alloc, words) {
        Ok(command) => command,
        Err(WordsErr::Refused) => return refuse(alloc, None, Status::WordsRefused, out),
        Err(WordsErr::Memory) => return Report::untraced(alloc, Status::Memory, 0),
    };
    match prepare(alloc, &command, files) {
        Ok(prepared) => perform(alloc, prepared, out),
        Err(status) => refuse(alloc, Some(&command), status, out),
    }
}
