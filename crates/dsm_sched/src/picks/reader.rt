//! The reader of lists of picks.

ghost use Rattle.std.specs.Prelude.{◌≡◌, ◌≤◌, length, map, IfOk, IsTrue};
ghost use Rattle.std.specs.List.{list_all};
ghost use Rattle.dsm_sched.specs.Words.{rows_left};
ghost use Rattle.dsm_sched.specs.Entries.{Gives, all_or_refusal};
ghost use Rattle.dsm_sched.specs.Picks.{is_entry};
ghost use Rattle.dsm_sched.specs.PickTexts.{pick_at, picks_said};

use crate::heading::{MOST_UNITS, read_heading, test_length};
use crate::picks::entry::entry_at;
use crate::picks::{PickEntries, Picks, count};
use crate::rows::Rows;
use dsm_base::SchedErr;
use sqlite_items::Items;
use std::alloc::Global;

/// Reads the entries of the rows that are left.
fn read_entries(alloc: Global, procs: u8, rows: &mut Rows<'_>) -> Result<PickEntries, SchedErr>
    ensures said { Gives (λ entries. entries) result
        (all_or_refusal (map (pick_at procs) (rows_left rows.old))) }
    ensures kept { IfOk result (λ entries. IsTrue (list_all (is_entry procs) entries)) }
    ensures few { IfOk result (λ entries. length entries ≤ length (rows_left rows.old)) }
{
    let mut entries = Items::new(alloc);
    'rows: while let Some(row) = rows.next(alloc)? {
        entries.push(entry_at(procs, &row)?)?;
    }
    Ok(entries)
}

/// Reads a list of picks. `TooLong` where the text has over 4,194,304 bytes; else `NoProcs` where it
/// doesn't begin with a `procs`; else `BadEntry` or `OutOfRange` of the first line that is of no form or
/// has a number that isn't in its range; else `TooMany` where there are over 500,000 picks; `Memory`
/// where there is no memory for it.
pub fn read_picks(alloc: Global, bytes: &[u8]) -> Result<Picks, SchedErr>
    ensures { Gives (λ picks. (picks.procs, picks.entries)) result (picks_said bytes.now) }
{
    test_length(bytes)?;
    let mut rows = Rows::new(bytes);
    let procs = read_heading(alloc, &mut rows)?;
    let entries = read_entries(alloc, procs, &mut rows)?;
    let count = count(procs, entries.as_slice());
    if count > MOST_UNITS as u64 {
        return Err(SchedErr::TooMany { count });
    }
    Ok(Picks::new(alloc, procs, entries)?)
}
