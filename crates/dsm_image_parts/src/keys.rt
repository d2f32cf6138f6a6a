//! The processors, locks and lines for which an image has one entry each.

ghost use Rattle.std.specs.Prelude.{◌≡◌, ◌≤◌, ◌+◌, ◌++◌, IfOk, OnOk};
ghost use Rattle.dsm_base.specs.declared.setup.Object.{Object};
ghost use Rattle.dsm_lines.specs.Places.{lines, lines_of, lines_of_span};
ghost use Rattle.dsm_image_parts.specs.Keys.{is_home, is_manager, others, home_locks};

use crate::scope::Scope;
use dsm_base::{Lock, MemFault, Object, Proc};
use dsm_lines::{BindTable, Span};
use std::alloc::Global;

/// Whether a processor is a lock's home.
pub(crate) fn is_home(scope: &Scope, proc: Proc, lock: u16) -> bool
    ensures { result ≡ is_home scope.now proc.0 lock }
{
    proc.0 < scope.procs && lock % scope.procs as u16 == proc.0 as u16
}

/// Whether a processor is a barrier's manager.
pub(crate) fn is_manager(scope: &Scope, proc: Proc, bar: u8) -> bool
    ensures { result ≡ is_manager scope.now proc.0 bar }
{
    proc.0 < scope.procs && bar % scope.procs == proc.0
}

/// The other processors, rising.
pub(crate) fn others(alloc: Global, scope: &Scope, me: Proc) -> Result<Vec<Proc>, MemFault>
    ensures { IfOk result (λ procs. procs.items ≡ others scope.now me.0) }
{
    let mut procs = Vec::new(alloc);
    for proc in 0..scope.procs {
        if proc != me.0 {
            procs.push(Proc(proc))?;
        }
    }
    Ok(procs)
}

/// The locks whose home a processor is, rising.
pub(crate) fn home_locks(alloc: Global, scope: &Scope, me: Proc) -> Result<Vec<Lock>, MemFault>
    ensures { IfOk result (λ locks. locks.items ≡ home_locks scope.now me.0) }
{
    let mut locks = Vec::new(alloc);
    for lock in 0..scope.locks {
        if is_home(scope, me, lock) {
            locks.push(Lock(lock))?;
        }
    }
    Ok(locks)
}

/// Adds the lines of a span, which are lines of the table.
fn push_span(list: &mut Vec<u32>, table: &BindTable, span: Span) -> Result<(), MemFault>
    requires { span.first + span.count ≤ lines table.now }
    ensures { OnOk result (list.new.items ≡ list.old.items ++ lines_of_span span) }
{
    let end = table.lines().min(span.first.saturating_add(span.count));
    for line in span.first..end {
        list.push(line)?;
    }
    Ok(())
}

/// The lines of a lock, rising.
pub(crate) fn lines_of_lock(alloc: Global, scope: &Scope, lock: Lock) -> Result<Vec<u32>, MemFault>
    ensures { IfOk result (λ lines. lines.items ≡ lines_of scope.now.table (Object.Lock lock)) }
{
    let mut lines = Vec::new(alloc);
    for span in scope.table.spans_of(Object::Lock(lock)) {
        push_span(&mut lines, &scope.table, *span)?;
    }
    Ok(lines)
}
