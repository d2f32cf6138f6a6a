//! The picks of entries, one by one.

ghost use Rattle.std.specs.Prelude.{◌≡◌, ◌<◌, ◌^◌, ◌++◌, sum_by, slice_get, IfOk, IfSome, OnOk, IsTrue};
ghost use Rattle.dsm_sched.specs.Picks.{is_picks, entry_units, round_of, picks_of, picked_by};
ghost use Rattle.dsm_sched.specs.PickTexts.{picked};

use crate::picks::{PickEntries, PickEntry, Picks};
use dsm_base::{MemFault, Proc};
use sqlite_items::Items;
use std::alloc::Global;

impl PickEntry {
    /// How many picks an entry has.
    fn units(self, procs: u8) -> u64
        ensures { result ≡ entry_units procs self }
    {
        match self {
            PickEntry::Pick(_, count) => u64::from(count),
            PickEntry::All(rounds) => u64::from(rounds) * u64::from(procs),
        }
    }

    /// Appends the picks of an entry.
    fn unroll(self, procs: u8, all: &mut Items<Proc>) -> Result<(), MemFault>
        ensures { OnOk result (all.new ≡ all.old ++ picks_of procs self) }
    {
        match self {
            PickEntry::Pick(proc, count) => {
                'picks: for _ in 0..count {
                    all.push(proc)?;
                }
            }
            PickEntry::All(rounds) => {
                'rounds: for _ in 0..rounds {
                    push_round(procs, all)?;
                }
            }
        }
        Ok(())
    }
}

/// Appends every processor once, in order.
fn push_round(procs: u8, all: &mut Items<Proc>) -> Result<(), MemFault>
    ensures { OnOk result (all.new ≡ all.old ++ round_of procs) }
{
    for p in 0..procs {
        all.push(Proc(p))?;
    }
    Ok(())
}

/// The picks of all entries, one by one.
fn unroll_all(alloc: Global, procs: u8, entries: &[PickEntry]) -> Result<Items<Proc>, MemFault>
    ensures { IfOk result (λ all. all ≡ picked_by procs entries.now) }
{
    let mut all = Items::new(alloc);
    for entry in entries {
        entry.unroll(procs, &mut all)?;
    }
    Ok(all)
}

/// How many picks there are of all entries.
pub(crate) fn count(procs: u8, entries: &[PickEntry]) -> u64
    requires { sum_by (entry_units procs) entries.now < 2 ^ 64 }
    ensures { result ≡ sum_by (entry_units procs) entries.now }
{
    entries.iter().map(|entry| entry.units(procs)).sum()
}

impl Picks {
    /// A list of picks with these entries. `MemFault` for want of memory.
    pub fn new(alloc: Global, procs: u8, entries: PickEntries) -> Result<Picks, MemFault>
        requires { IsTrue (is_picks procs entries) }
        ensures procs { IfOk result (λ picks. picks.procs ≡ procs) }
        ensures entries { IfOk result (λ picks. picks.entries ≡ entries) }
    {
        let all = unroll_all(alloc, procs, entries.as_slice())?;
        Ok(Picks {
            procs,
            entries,
            all,
        })
    }

    /// The processor of the pick with this number, from 0, where there are so many.
    pub fn pick(&self, index: u32) -> Option<Proc>
        ensures member { result ≡ slice_get (picked self.now) index }
        ensures below { IfSome result (λ proc. proc.0 < self.now.procs) }
    {
        self.all.get(index as usize).copied()
    }
}
