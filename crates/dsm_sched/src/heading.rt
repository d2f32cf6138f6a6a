//! The first entry of a text.

ghost use Rattle.std.specs.Prelude.{◌≡◌, ◌<◌, ◌≤◌, length, map, codes, IfOk, MatchResult, IsTrue};
ghost use Rattle.dsm_base.specs.Setups.{is_proc_count};
ghost use Rattle.dsm_sched.specs.Words.{rows_left};
ghost use Rattle.dsm_sched.specs.Entries.{Gives, begins_with, procs_form, procs_at, headed, too_long};

use crate::rows::{Row, Rows};
use crate::words::number;
use dsm_base::SchedErr;
use std::alloc::Global;

/// The most bytes of a schedule or a list of picks.
pub const MOST_BYTES: usize = 4_194_304;

/// The most units of a schedule or a list of picks.
pub const MOST_UNITS: usize = 500_000;

/// Whether the first word is `procs`.
fn begins_with_procs(words: &[&[u8]]) -> bool
    ensures { result ≡ begins_with (codes "procs") (map (λ word. word.now) words.now) }
{
    match words {
        [] => false,
        [name, ..] => *name == b"procs".as_slice(),
    }
}

/// The number of `procs N`.
fn procs_form(words: &[&[u8]]) -> Option<u32>
    ensures { result ≡ procs_form (map (λ word. word.now) words.now) }
{
    match words {
        [_, count] => number(count),
        _ => None,
    }
}

/// How many processors a row says that there are.
fn procs_at(row: &Row<'_>) -> Result<u8, SchedErr>
    ensures { result ≡ procs_at row.now }
{
    let line = row.line();
    let procs = procs_form(row.words()).ok_or(SchedErr::BadEntry { line })?;
    match u8::try_from(procs) {
        Ok(procs @ 2..=16) => Ok(procs),
        _ => Err(SchedErr::OutOfRange { line }),
    }
}

/// Reads the first entry, `procs N`. `NoProcs` where no row is left or the first doesn't begin with
/// `procs`, `BadEntry` where it isn't `procs N`, `OutOfRange` where N isn't 2 to 16.
pub(crate) fn read_heading(alloc: Global, rows: &mut Rows<'_>) -> Result<u8, SchedErr>
    ensures said { Gives (λ procs. (procs, rows_left rows.new)) result
        (headed (rows_left rows.old)) }
    ensures count { IfOk result (λ procs. IsTrue (is_proc_count procs)) }
{
    let Some(row) = rows.next(alloc)? else {
        return Err(SchedErr::NoProcs);
    };
    if !begins_with_procs(row.words()) {
        return Err(SchedErr::NoProcs);
    }
    procs_at(&row)
}

/// Tests that a text isn't too long to be read: `TooLong` where it has over 4,194,304 bytes.
pub(crate) fn test_length(text: &[u8]) -> Result<(), SchedErr>
    ensures { MatchResult result (λ _. length text.now ≤ 4194304)
        (λ refusal. (4194304 < length text.now) × (refusal ≡ too_long text.now)) }
{
    if text.len() > MOST_BYTES {
        return Err(SchedErr::TooLong {
            bytes: u32::try_from(text.len()).unwrap_or(u32::MAX),
        });
    }
    Ok(())
}
