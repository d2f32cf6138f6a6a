//! What stands before a run: programs, schedules and lists of picks from their files.

ghost use Rattle.std.specs.Prelude.{◌≡◌, Some, Ok, string_bytes, IfOk, IfErr, MatchResult};
ghost use Rattle.dsm_check.specs.CheckedViews.{program_of};
ghost use Rattle.dsm_check.specs.Setups.{fitting};
ghost use Rattle.dsm_top.specs.Accepted.{IsText, HasChecked, HasSchedule, IsAccepted, HasFitting, HasPicks};
ghost use Rattle.dsm_command.specs.InCode.{command_in};
ghost use Rattle.dsm_top.specs.Refusals.{given_by, RefusesSchedule, RefusesRun, RefusesProgram, RefusesPicks, RefusesOwner, RefusesCheck, RefusesPlain, RefusesOrMemory};
ghost use Rattle.dsm_top.specs.Prepared.{span_of, IsUnread, RefusesIn, Keeps, CanPick, IsReady, IsPrepared};

use crate::program::read_checked;
use crate::shown::Asked;
use crate::status::Status;
use dsm_base::{Files, ReadErr};
use dsm_check::{Checked, fit};
use dsm_command::Command;
use dsm_sched::{MOST_BYTES, Picks, Schedule, read_picks, read_schedule};
use dsm_syntax::MOST_TEXT;
use std::alloc::Global;

/// A program and a schedule that are accepted.
#[derive(Drop)]
pub(crate) struct ScheduledRun {
    pub program: Checked,
    pub schedule: Schedule,
    pub asked: Asked,
}

/// A program and a list of picks that are accepted.
#[derive(Drop)]
pub(crate) struct PickRun {
    pub program: Checked,
    pub picks: Picks,
}

/// What a command needs, where all that it names is accepted.
#[derive(Drop)]
pub(crate) enum Prepared {
    Run(ScheduledRun),
    Check,
    Plain(PickRun),
}

/// Reads the file with this number, at most one byte more than are wanted.
fn read_text<F: Files>(
    alloc: Global,
    files: &mut F,
    name: &String,
    most: usize,
    number: u8,
) -> Result<Vec<u8>, Status>
    ensures text { IfOk result (λ text.
        IsText (F.files_hold files.old) (string_bytes name.now) most text.items) }
    ensures failed { IfErr result
        (IsUnread number (F.files_faults files.old) (F.files_faults files.new)) }
    ensures keeps { Keeps (span_of F.files_hold F.files_faults files.old files.new)
        (F.files_hold files.new) }
{
    let mut text = Vec::new(alloc);
    match files.read(name, most, &mut text) {
        Ok(()) => Ok(text),
        Err(ReadErr::Failed) => Err(Status::ReadFault(number)),
        Err(ReadErr::Memory) => Err(Status::Memory),
    }
}

/// Reads the schedule of `run`.
fn schedule_of<F: Files>(alloc: Global, name: &String, files: &mut F) -> Result<Schedule, Status>
    ensures schedule { IfOk result (λ schedule.
        HasSchedule (F.files_hold files.old) (string_bytes name.now)
        schedule.procs schedule.entries) }
    ensures refused { IfErr result
        (RefusesIn (span_of F.files_hold F.files_faults files.old files.new)
        (λ given. RefusesSchedule given (string_bytes name.now))) }
    ensures keeps { Keeps (span_of F.files_hold F.files_faults files.old files.new)
        (F.files_hold files.new) }
{
    let text = read_text(alloc, files, name, MOST_BYTES, 1)?;
    Ok(read_schedule(alloc, text.as_slice())?)
}

/// Reads a program of the whole language.
fn checked_of<F: Files>(alloc: Global, name: &String, files: &mut F) -> Result<Checked, Status>
    ensures program { IfOk result (λ found. HasChecked (F.files_hold files.old)
        (string_bytes name.now) (program_of found)) }
    ensures refused { IfErr result
        (RefusesIn (span_of F.files_hold F.files_faults files.old files.new)
        (λ given. RefusesProgram given (string_bytes name.now))) }
    ensures keeps { Keeps (span_of F.files_hold F.files_faults files.old files.new)
        (F.files_hold files.new) }
{
    let text = read_text(alloc, files, name, MOST_TEXT, 0)?;
    Ok(read_checked(alloc, text.as_slice())?)
}

/// Reads a list of picks.
fn picks_of<F: Files>(alloc: Global, name: &String, files: &mut F) -> Result<Picks, Status>
    ensures picks { IfOk result (λ picks.
        HasPicks (F.files_hold files.old) (string_bytes name.now) picks.procs picks.entries) }
    ensures refused { IfErr result
        (RefusesIn (span_of F.files_hold F.files_faults files.old files.new)
        (λ given. RefusesPicks given (string_bytes name.now))) }
    ensures keeps { Keeps (span_of F.files_hold F.files_faults files.old files.new)
        (F.files_hold files.new) }
{
    let text = read_text(alloc, files, name, MOST_BYTES, 1)?;
    Ok(read_picks(alloc, text.as_slice())?)
}

/// Tests that each owner is one of so many processors.
fn test_owners(program: &Checked, procs: u8) -> Result<(), Status>
    ensures { MatchResult result (λ _. fitting (program_of program.now) procs ≡ Ok tt)
        (RefusesOwner (program_of program.now) procs) }
{
    fit(program, procs).map_err(Status::ProgramRefused)
}

/// Reads the program and the schedule of `run`, and tests the owners.
fn prepare_run<F: Files>(
    alloc: Global,
    program: &String,
    schedule: &String,
    asked: Asked,
    files: &mut F,
) -> Result<ScheduledRun, Status>
    ensures asked { IfOk result (λ prepared. prepared.asked ≡ asked) }
    ensures accepted { IfOk result (λ prepared. IsAccepted (F.files_hold files.old)
        (string_bytes program.now) (string_bytes schedule.now)
        (program_of prepared.program) prepared.schedule.procs prepared.schedule.entries) }
    ensures refused { IfErr result
        (RefusesIn (span_of F.files_hold F.files_faults files.old files.new)
        (λ given. RefusesRun given (string_bytes program.now) (string_bytes schedule.now))) }
{
    let found = checked_of(alloc, program, files)?;
    let schedule = schedule_of(alloc, schedule, files)?;
    test_owners(&found, schedule.procs)?;
    Ok(ScheduledRun {
        program: found,
        schedule,
        asked,
    })
}

/// Reads the program of `check`, and tests its owners.
fn prepare_check<F: Files>(
    alloc: Global,
    program: &String,
    procs: u8,
    files: &mut F,
) -> Result<Checked, Status>
    ensures accepted { IfOk result (λ found. HasFitting (F.files_hold files.old)
        (string_bytes program.now) procs (program_of found)) }
    ensures refused { IfErr result
        (RefusesIn (span_of F.files_hold F.files_faults files.old files.new)
        (λ given. RefusesCheck given (string_bytes program.now) procs)) }
{
    let found = checked_of(alloc, program, files)?;
    test_owners(&found, procs)?;
    Ok(found)
}

/// Reads the program and the picks of `plain`, and tests the owners.
fn prepare_plain<F: Files>(
    alloc: Global,
    program: &String,
    picks: &String,
    files: &mut F,
) -> Result<PickRun, Status>
    ensures accepted { IfOk result (λ prepared. HasFitting (F.files_hold files.old)
        (string_bytes program.now) prepared.picks.procs (program_of prepared.program)) }
    ensures picks { IfOk result (λ prepared. HasPicks (F.files_hold files.old)
        (string_bytes picks.now) prepared.picks.procs prepared.picks.entries) }
    ensures refused { IfErr result
        (RefusesIn (span_of F.files_hold F.files_faults files.old files.new)
        (λ given. RefusesPlain given (string_bytes program.now) (string_bytes picks.now))) }
{
    let found = checked_of(alloc, program, files)?;
    let picks = picks_of(alloc, picks, files)?;
    test_owners(&found, picks.procs)?;
    Ok(PickRun {
        program: found,
        picks,
    })
}

/// Reads what a command names. `WordsRefused` for one that isn't built yet: `load`.
pub(crate) fn prepare<F: Files>(
    alloc: Global,
    command: &Command,
    files: &mut F,
) -> Result<Prepared, Status>
    ensures accepted { IfOk result
        (IsPrepared (F.files_hold files.old) (Some (command_in command.now))) }
    ensures ready { IfOk result IsReady }
    ensures refused { IfErr result (RefusesOrMemory
        (given_by F.files_hold F.files_faults (Some (command_in command.now))
        files.old files.new)) }
{
    match command {
        Command::Run {
            program,
            schedule,
            trace,
            state,
        } => {
            let asked = Asked {
                trace: *trace,
                state: *state,
            };
            Ok(Prepared::Run(prepare_run(alloc, program, schedule, asked, files)?))
        }
        Command::Check { program, procs } => {
            prepare_check(alloc, program, *procs, files)?;
            Ok(Prepared::Check)
        }
        Command::Plain { program, picks } => {
            Ok(Prepared::Plain(prepare_plain(alloc, program, picks, files)?))
        }
        Command::Load { .. } => Err(Status::WordsRefused),
    }
}
