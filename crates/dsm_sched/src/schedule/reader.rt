//! The reader of schedules.

ghost use Rattle.std.specs.Prelude.{◌≡◌, ◌≤◌, [], None, true, length, IfOk, IsTrue};
ghost use Rattle.std.specs.List.{list_all};
ghost use Rattle.dsm_sched.specs.Words.{rows_of, rows_left};
ghost use Rattle.dsm_sched.specs.Entries.{Gives, all_or_refusal};
ghost use Rattle.dsm_sched.specs.Schedules.{is_entry, is_schedule};
ghost use Rattle.dsm_sched.specs.ScheduleTexts.{said_behind, schedule_said};
ghost use Rattle.dsm_sched.specs.Built.{is_built, first_unbuilt, unbuilt_line, unbuilt_in, built_said};

use crate::heading::{MOST_UNITS, read_heading, test_length};
use crate::rows::Rows;
use crate::schedule::crashes::Crashes;
use crate::schedule::form::entry_at;
use crate::schedule::units::count_units;
use crate::schedule::{Entries, Entry, Schedule};
use dsm_base::{Act, SchedErr};
use sqlite_items::Items;
use std::alloc::Global;

/// Whether an entry can be run yet.
fn is_built(entry: Entry) -> bool
    ensures { result ≡ is_built entry }
{
    match entry {
        Entry::Unit(Act::Step(_), _) => true,
        Entry::Unit(Act::Deliver(_, _), _) => true,
        Entry::Finish(_) => true,
        _ => false,
    }
}

/// The line of the first entry that can't be run yet, with one more entry at a line.
fn first_unbuilt(known: Option<u32>, line: u32, entry: Entry) -> Option<u32>
    ensures { result ≡ first_unbuilt known line entry }
{
    match known {
        Some(line) => Some(line),
        None if is_built(entry) => None,
        None => Some(line),
    }
}

/// Entries, and the line of the first that can't be run yet.
#[derive(Drop)]
struct Read {
    entries: Entries,
    unbuilt: Option<u32>,
}

/// Reads the entries of the rows that are left.
fn read_entries(alloc: Global, procs: u8, rows: &mut Rows<'_>) -> Result<Read, SchedErr>
    ensures said { Gives (λ read. read.entries) result
        (all_or_refusal (said_behind procs [] (rows_left rows.old))) }
    ensures kept { IfOk result (λ read. IsTrue (list_all (is_entry procs) read.entries)) }
    ensures few { IfOk result (λ read. length read.entries ≤ length (rows_left rows.old)) }
    ensures unbuilt { IfOk result (λ read.
        read.unbuilt ≡ unbuilt_line (rows_left rows.old) read.entries) }
    ensures built { IfOk result (λ read.
        read.unbuilt ≡ None → list_all is_built read.entries ≡ true) }
{
    let mut entries = Items::new(alloc);
    let mut crashes = Crashes::Before;
    let mut unbuilt = None;
    'rows: while let Some(row) = rows.next(alloc)? {
        let entry = entry_at(procs, &row)?;
        crashes = crashes.behind(row.line(), entry)?;
        unbuilt = first_unbuilt(unbuilt, row.line(), entry);
        entries.push(entry)?;
    }
    Ok(Read { entries, unbuilt })
}

/// What a text says as a schedule, and the line of the first entry that can't be run yet.
#[derive(Drop)]
struct Whole {
    procs: u8,
    entries: Entries,
    unbuilt: Option<u32>,
}

/// Reads any schedule.
fn read_whole(alloc: Global, bytes: &[u8]) -> Result<Whole, SchedErr>
    ensures said { Gives (λ whole. (whole.procs, whole.entries)) result (schedule_said bytes.now) }
    ensures kept { IfOk result (λ whole. IsTrue (is_schedule whole.procs whole.entries)) }
    ensures unbuilt { IfOk result (λ whole.
        whole.unbuilt ≡ unbuilt_in (rows_of bytes.now) whole.entries) }
    ensures built { IfOk result (λ whole.
        whole.unbuilt ≡ None → list_all is_built whole.entries ≡ true) }
{
    test_length(bytes)?;
    let mut rows = Rows::new(bytes);
    let procs = read_heading(alloc, &mut rows)?;
    let read = read_entries(alloc, procs, &mut rows)?;
    let count = count_units(procs, read.entries.as_slice());
    if count > MOST_UNITS as u64 {
        return Err(SchedErr::TooMany { count });
    }
    Ok(Whole {
        procs,
        entries: read.entries,
        unbuilt: read.unbuilt,
    })
}

/// Reads a schedule. `TooLong` where the text has over 4,194,304 bytes; else `NoProcs` where it doesn't
/// begin with a `procs`; else what the first faulty line is refused for: `BadEntry` where it is of no
/// form, `OutOfRange` where a number isn't in its range, `SecondCrash` where a crash comes before it and
/// it is one, `NoCrash` where it restarts a processor that isn't down; else `TooMany` where there are
/// over 500,000 units; else `NotBuilt` with the line of the first entry that can't be run yet, which is
/// any entry of images and crashes; `Memory` where there is no memory for it.
pub fn read_schedule(alloc: Global, bytes: &[u8]) -> Result<Schedule, SchedErr>
    ensures said { Gives (λ schedule. (schedule.procs, schedule.entries)) result
        (built_said bytes.now) }
    ensures built { IfOk result (λ schedule. IsTrue (list_all is_built schedule.entries)) }
{
    let whole = read_whole(alloc, bytes)?;
    if let Some(line) = whole.unbuilt {
        return Err(SchedErr::NotBuilt { line });
    }
    Ok(Schedule::new(alloc, whole.procs, whole.entries)?)
}
