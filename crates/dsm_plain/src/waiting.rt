//! What a pick tells, and who keeps a processor waiting.

ghost use Rattle.std.specs.Prelude.{◌≡◌, ◌≤◌, length, IfOk};
ghost use Rattle.std.specs.Option.{option_to_list};
ghost use Rattle.dsm_base.specs.Rights.{held_of, arrived_of};
ghost use Rattle.dsm_plain.specs.Machine.{rights_at};
ghost use Rattle.dsm_plain.specs.Waiting;

use dsm_base::{
    Bar, Holder, Holders, Label, Lock, MemFault, Mode, Proc, Procs, Rights, are_compatible,
};
use sqlite_items::Items;
use std::alloc::Global;

/// What a pick of a processor came to. But for `Did` the machine is as before.
#[derive(Drop)]
pub enum Picked {
    /// Its thread made this turn.
    Did(Label),
    /// It wants to take a lock that these hold, in increasing order.
    Blocked(Holders),
    /// It wants to cross a barrier that these haven't come to, in increasing order.
    Missing(Procs),
    /// Its thread has ended or stopped.
    Over,
}

/// The holder of a lock, where another may not take it beside that one.
fn blocker(me: Proc, mode: Mode, other: Proc, held: Option<Mode>) -> Option<Holder>
    ensures { option_to_list result ≡ Waiting.as_blocker me.0 mode other.0 held }
{
    let held = held?;
    if other == me || are_compatible(mode, held) {
        None
    } else {
        Some(Holder {
            proc: other,
            mode: held,
        })
    }
}

/// Those beside whom a processor may not take a lock. `MemFault` comes out of memory.
pub fn blockers(
    alloc: Global,
    rights: &[Rights],
    me: Proc,
    lock: Lock,
    mode: Mode,
) -> Result<Holders, MemFault>
    requires { length rights.now ≤ 16 }
    ensures { IfOk result (λ holders. holders ≡ Waiting.blockers (length rights.now)
        (λ p. held_of (rights_at rights.now p)) me.0 lock.0 mode) }
{
    let mut holders = Items::new(alloc);
    for at in 0..rights.len() {
        if let Some(holder) = blocker(me, mode, Proc(at as u8), rights[at].mode_at(lock)) {
            holders.push(holder)?;
        }
    }
    Ok(holders)
}

/// Those who haven't come to a barrier for its next epoch. `MemFault` comes out of memory.
pub fn late(alloc: Global, rights: &[Rights], epoch: u32, bar: Bar) -> Result<Procs, MemFault>
    requires { length rights.now ≤ 16 }
    ensures { IfOk result (λ procs. procs ≡ Waiting.late (length rights.now)
        (λ p. arrived_of (rights_at rights.now p)) epoch bar.0) }
{
    let mut procs = Items::new(alloc);
    for at in 0..rights.len() {
        if rights[at].arrivals_at(bar) <= epoch {
            procs.push(Proc(at as u8))?;
        }
    }
    Ok(procs)
}
