//! Locks at their home, and logs for other processors, in bytes.

ghost use Rattle.std.specs.Prelude.{None};
ghost use Rattle.dsm_base.specs.declared.setup.Object.{Object};
ghost use Rattle.dsm_lines.specs.Places.{lines_of};
ghost use Rattle.dsm_fields.specs.Reading.{Gives};
ghost use Rattle.dsm_image_parts.specs.Keys.{others, home_locks, each_at};
ghost use Rattle.dsm_image_parts.specs.Reading.{saved_line_at, saved_lock_at, log_at};

use crate::entries::{ProcLog, SavedLine, SavedLock};
use crate::keys::{home_locks, lines_of_lock, others};
use crate::part::{Part, each, listed, parts, put_listed, put_parts};
use crate::scope::Scope;
use dsm_base::{Lock, LoggedGrant, LoggedOpening, MemFault, Object, Proc, Record};
use dsm_fields::{FieldErr, number, put_number};
use dsm_msg::Logged;
use sqlite_items::Items;
use std::alloc::Global;

/// A line of a lock, by the line's number.
impl Part<u32> for SavedLine {
    ghost use Rattle.dsm_image_parts.specs.Spelling.{saved_line_fields};
    ghost use Rattle.dsm_image_parts.specs.Reading.{saved_line_at};

    ghost part_fields = { λ scope line. saved_line_fields };

    ghost part_at = { λ scope line at last. saved_line_at scope line };

    #[tactic(auto, unfolding(crate::specs::Reading::saved_line_at))]
    fn read<'a>(
        alloc: Global,
        scope: &Scope,
        line: u32,
        _number: u32,
        _last: Option<&SavedLine>,
        bytes: &'a [u8],
    ) -> Result<(SavedLine, &'a [u8]), FieldErr> {
        let (stamp, rest) = number(bytes)?;
        let width = scope.table.cells_in(line) as u32;
        let object = Object::Lock(Lock(0));
        let (values, rest) = parts::<Object, i64>(alloc, scope, object, width, rest)?;
        let values = Items::from_vec(values);
        Ok((SavedLine { stamp, values }, rest))
    }

    fn write(&self, out: &mut Vec<u8>) -> Result<(), MemFault> {
        put_number(out, self.stamp)?;
        put_parts::<Object, i64>(out, self.values.as_slice())
    }
}

/// Each line of a lock, and the bytes behind them.
fn saved_lines<'a>(
    alloc: Global,
    scope: &Scope,
    lock: Lock,
    bytes: &'a [u8],
) -> Result<(Vec<SavedLine>, &'a [u8]), FieldErr>
    ensures { Gives (λ x. (x.0.items, x.1.now)) result
        (each_at (λ line last. saved_line_at scope.now line) None
        (lines_of scope.now.table (Object.Lock lock)) bytes.now) }
{
    let lines = lines_of_lock(alloc, scope, lock)?;
    each::<u32, SavedLine>(alloc, scope, lines.as_slice(), bytes)
}

/// A lock, which is the one that is due.
impl Part<Lock> for SavedLock {
    ghost use Rattle.dsm_image_parts.specs.Spelling.{saved_lock_fields};
    ghost use Rattle.dsm_image_parts.specs.Reading.{saved_lock_at};

    ghost part_fields = { λ scope lock. saved_lock_fields };

    ghost part_at = { λ scope lock at last. saved_lock_at scope lock };

    #[tactic(auto, unfolding(crate::specs::Reading::saved_lock_at))]
    fn read<'a>(
        alloc: Global,
        scope: &Scope,
        lock: Lock,
        _number: u32,
        _last: Option<&SavedLock>,
        bytes: &'a [u8],
    ) -> Result<(SavedLock, &'a [u8]), FieldErr> {
        let (version, rest) = number(bytes)?;
        let (lines, rest) = saved_lines(alloc, scope, lock, rest)?;
        let saved = SavedLock {
            lock,
            version,
            lines: Items::from_vec(lines),
        };
        Ok((saved, rest))
    }

    fn write(&self, out: &mut Vec<u8>) -> Result<(), MemFault> {
        put_number(out, self.version)?;
        put_parts::<u32, SavedLine>(out, self.lines.as_slice())
    }
}

/// Each lock whose home a processor is, and the bytes behind them.
pub fn saved_locks<'a>(
    alloc: Global,
    scope: &Scope,
    me: Proc,
    bytes: &'a [u8],
) -> Result<(Vec<SavedLock>, &'a [u8]), FieldErr>
    ensures { Gives (λ x. (x.0.items, x.1.now)) result
        (each_at (λ lock last. saved_lock_at scope.now lock) None (home_locks scope.now me.0) bytes.now) }
{
    let locks = home_locks(alloc, scope, me)?;
    each::<Lock, SavedLock>(alloc, scope, locks.as_slice(), bytes)
}

/// What is logged for a processor, which is the one that is due.
impl Part<Proc> for ProcLog {
    ghost use Rattle.dsm_image_parts.specs.Spelling.{log_fields};
    ghost use Rattle.dsm_image_parts.specs.Reading.{log_at};

    ghost part_fields = { λ scope proc. log_fields scope };

    ghost part_at = { λ scope proc at last. log_at scope proc };

    #[tactic(auto, unfolding(crate::specs::Reading::log_at))]
    fn read<'a>(
        alloc: Global,
        scope: &Scope,
        proc: Proc,
        _number: u32,
        _last: Option<&ProcLog>,
        bytes: &'a [u8],
    ) -> Result<(ProcLog, &'a [u8]), FieldErr> {
        let (grants, rest) = listed::<Proc, LoggedGrant>(alloc, scope, proc, bytes)?;
        let (openings, rest) = listed::<Proc, LoggedOpening>(alloc, scope, proc, rest)?;
        let (records, rest) = listed::<Proc, Record>(alloc, scope, proc, rest)?;
        let logged = Logged {
            grants: Items::from_vec(grants),
            openings: Items::from_vec(openings),
            records: Items::from_vec(records),
        };
        Ok((ProcLog { proc, logged }, rest))
    }

    fn write(&self, out: &mut Vec<u8>) -> Result<(), MemFault> {
        put_listed::<Proc, LoggedGrant>(out, self.logged.grants.as_slice())?;
        put_listed::<Proc, LoggedOpening>(out, self.logged.openings.as_slice())?;
        put_listed::<Proc, Record>(out, self.logged.records.as_slice())
    }
}

/// What is logged for each other processor, and the bytes behind it.
pub fn logs<'a>(
    alloc: Global,
    scope: &Scope,
    me: Proc,
    bytes: &'a [u8],
) -> Result<(Vec<ProcLog>, &'a [u8]), FieldErr>
    ensures { Gives (λ x. (x.0.items, x.1.now)) result
        (each_at (λ proc last. log_at scope.now proc) None (others scope.now me.0) bytes.now) }
{
    let procs = others(alloc, scope, me)?;
    each::<Proc, ProcLog>(alloc, scope, procs.as_slice(), bytes)
}
