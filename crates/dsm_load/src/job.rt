//! The schedule of the large job.

ghost use Rattle.std.specs.Prelude.{◌≡◌, ℕ, length, OnOk, IfOk};
ghost use Rattle.dsm_sched.specs.ScheduleTexts.{units_of};
ghost use Rattle.dsm_load.specs.Draws.{state_after};
ghost use Rattle.dsm_load.specs.Jobs.{AppendsDrawn, act_of, job_of};

use crate::draws::Draws;
use dsm_base::{Act, MemFault, Proc};
use dsm_sched::{Entries, Entry, Schedule};
use sqlite_items::Items;
use std::alloc::Global;

/// The unit of a number that was drawn.
fn act_of(number: u32) -> Act
    ensures { result ≡ act_of number }
{
    let first = number / 16 % 4;
    let second = (first + 1 + number / 64 % 3) % 4;
    match number % 16 {
        0..=7 => Act::Step(Proc(first as u8)),
        8..=13 => Act::Deliver(Proc(first as u8), Proc(second as u8)),
        14 => Act::Ckpt(Proc(first as u8)),
        _ => Act::Block(Proc(first as u8)),
    }
}

/// Appends so many drawn entries, after those that were drawn before.
fn push_drawn(entries: &mut Entries, draws: &mut Draws, count: u32) -> Result<(), MemFault>
    ensures { OnOk result ((seed from : ℕ) → draws.old.state ≡ state_after seed from →
        AppendsDrawn seed from count entries.old entries.new draws.new.state) }
{
    for _ in 0..count {
        let act = act_of(draws.draw());
        entries.push(Entry::Unit(act, 1))?;
    }
    Ok(())
}

/// The schedule of the large job with this number, for four processors: 40,000 entries that are drawn,
/// between which a processor crashes and restarts, and rounds until all is done. `MemFault` comes out of
/// memory.
pub fn generate(alloc: Global, seed: u32) -> Result<Schedule, MemFault>
    ensures procs { IfOk result (λ schedule. schedule.procs ≡ 4) }
    ensures entries { IfOk result (λ schedule. schedule.entries ≡ job_of seed) }
    ensures units { IfOk result (λ schedule. length (units_of schedule) ≡ 200002) }
{
    let mut entries = Items::new(alloc);
    let mut draws = Draws { state: seed as u64 };
    let victim = Proc((seed % 4) as u8);
    push_drawn(&mut entries, &mut draws, 20_000)?;
    entries.push(Entry::Unit(Act::Crash(victim), 1))?;
    push_drawn(&mut entries, &mut draws, 50)?;
    entries.push(Entry::Unit(Act::Restart(victim), 1))?;
    push_drawn(&mut entries, &mut draws, 19_950)?;
    entries.push(Entry::Finish(10_000))?;
    Schedule::new(alloc, 4, entries)
}
