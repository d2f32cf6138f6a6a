//! The machine before the first turn.

ghost use Rattle.std.specs.Prelude.{◌≡◌, ℕ, pos, map, length, None, IfOk};
ghost use Rattle.std.specs.List.{All};
ghost use Rattle.dsm_base.specs.Family.{family_of};
ghost use Rattle.dsm_base.specs.Rights.{held_of, arrived_of, crossed_of, HasSizes};
ghost use Rattle.dsm_check.specs.CheckedViews.{program_of};
ghost use Rattle.dsm_interpreter.specs.Threads.{state_of};
ghost use Rattle.dsm_semantics.specs.Programs.{first_states};
ghost use Rattle.dsm_plain.specs.Machine.{rights_at, IsThreadOf};

use dsm_base::{MemFault, Numbers, Proc, Rights};
use dsm_check::Checked;
use dsm_interpreter::PlainThread;
use sqlite_items::Items;
use std::alloc::Global;

/// The thread of a processor, right before its first labelled step.
fn start_thread<'a>(
    alloc: Global,
    checked: &'a Checked,
    me: Proc,
    procs: u8,
) -> Result<PlainThread<'a>, MemFault>
    ensures state { IfOk result (λ thread.
        state_of thread ≡ first_states (program_of checked.now) procs me.0) }
    ensures ready { IfOk result (IsThreadOf (program_of checked.now)) }
{
    PlainThread::start(
        alloc,
        checked.functions(),
        checked.main(),
        checked.private_cells(),
        me,
        procs,
    )
}

/// The threads of all processors.
pub fn start_threads<'a>(
    alloc: Global,
    checked: &'a Checked,
    procs: u8,
) -> Result<Vec<PlainThread<'a>>, MemFault>
    ensures count { IfOk result (λ threads. length threads.items ≡ procs) }
    ensures states { IfOk result (λ threads.
        family_of (first_states (program_of checked.now) procs) (map state_of threads.items) ≡
        first_states (program_of checked.now) procs) }
    ensures ready { IfOk result (λ threads.
        All (IsThreadOf (program_of checked.now)) threads.items) }
{
    let mut threads = Vec::new(alloc);
    for me in 0..procs {
        threads.push(start_thread(alloc, checked, Proc(me), procs)?)?;
    }
    Ok(threads)
}

/// The rights of all processors: none holds a lock, and none has come to a barrier.
pub fn start_rights(alloc: Global, procs: u8, locks: u16, bars: u8) -> Result<Vec<Rights>, MemFault>
    ensures count { IfOk result (λ rights. length rights.items ≡ procs) }
    ensures held { IfOk result (λ rights. (p : ℕ) →
        held_of (rights_at rights.items p) ≡ (λ lock. None)) }
    ensures arrived { IfOk result (λ rights. (p : ℕ) →
        arrived_of (rights_at rights.items p) ≡ (λ bar. 0)) }
    ensures crossed { IfOk result (λ rights. (p : ℕ) →
        crossed_of (rights_at rights.items p) ≡ (λ bar. 0)) }
    ensures sizes { IfOk result (λ rights. All (HasSizes locks bars) rights.items) }
{
    let mut rights = Vec::new(alloc);
    for _at in 0..procs {
        rights.push(Rights::new(alloc, locks, bars)?)?;
    }
    Ok(rights)
}

/// The memory before the first turn.
#[tactic(auto, using(dsm_base::proofs::Families::family_of_replicate))]
pub fn start_memory(alloc: Global, cells: u32) -> Result<Items<i64>, MemFault>
    ensures zeros { IfOk result (λ memory. family_of (λ cell. pos 0) memory ≡ (λ cell. pos 0)) }
    ensures length { IfOk result (λ memory. length memory ≡ cells) }
{
    Ok(Items::from_vec(vec![in alloc; 0; cells as usize]?))
}

/// The versions before the first turn.
#[tactic(auto, using(dsm_base::proofs::Families::family_of_replicate))]
pub fn start_versions(alloc: Global, locks: u16) -> Result<Numbers, MemFault>
    ensures zeros { IfOk result (λ versions. family_of (λ lock. 0) versions ≡ (λ lock. 0)) }
    ensures length { IfOk result (λ versions. length versions ≡ locks) }
{
    Ok(Items::from_vec(vec![in alloc; 0; usize::from(locks)]?))
}
