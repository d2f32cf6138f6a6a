//! The units of a schedule, by their numbers.

ghost use Rattle.std.specs.Prelude.{◌≡◌, ◌<◌, ◌≤◌, ◌*◌, ◌^◌, Some, true, length, sum_by, slice_get, IfOk, IfSome, IsTrue};
ghost use Rattle.std.specs.List.{list_all};
ghost use Rattle.std.specs.List.Sorted.{IsNonDecreasing};
ghost use Rattle.dsm_sched.specs.Schedules.{is_act, is_schedule, round_of, units_of_entry, unit_count, ends_of};
ghost use Rattle.dsm_sched.specs.ScheduleTexts.{units_of};
ghost use Rattle.dsm_sched.specs.Built.{is_built, is_built_act};
ghost use Rattle.dsm_sched.specs.Places.{IsPlace, start_of};

use crate::schedule::{Entries, Entry, Schedule};
use dsm_base::{Act, MemFault, Proc};
use sqlite_items::Items;
use std::alloc::Global;

/// The unit of a round with this number, from 0.
fn round_unit(procs: u8, number: u32) -> Act
    requires { number < procs * procs }
    ensures { slice_get (round_of procs) number ≡ Some result }
{
    let count = u32::from(procs);
    let proc = number / count;
    let place = number % count;
    if place == 0 {
        return Act::Step(Proc(proc as u8));
    }
    let other = if place <= proc { place - 1 } else { place };
    Act::Deliver(Proc(proc as u8), Proc(other as u8))
}

impl Entry {
    /// How many units an entry has.
    fn count(self, procs: u8) -> u64
        ensures { result ≡ unit_count procs self }
    {
        match self {
            Entry::Unit(_, count) => u64::from(count),
            Entry::Finish(rounds) => u64::from(rounds) * (u64::from(procs) * u64::from(procs)),
        }
    }

    /// The unit of an entry with this number, from 0.
    fn unit(self, procs: u8, number: u32) -> Act
        requires { number < unit_count procs self }
        ensures { slice_get (units_of_entry procs self) number ≡ Some result }
    {
        match self {
            Entry::Unit(act, _) => act,
            Entry::Finish(_) => {
                let count = u32::from(procs) * u32::from(procs);
                round_unit(procs, number % count)
            }
        }
    }
}

/// How many units there are of all entries.
pub(crate) fn count_units(procs: u8, entries: &[Entry]) -> u64
    requires { sum_by (unit_count procs) entries.now < 2 ^ 64 }
    ensures { result ≡ sum_by (unit_count procs) entries.now }
{
    entries.iter().map(|entry| entry.count(procs)).sum()
}

/// For each entry how many units there are up to its end.
fn ends(alloc: Global, procs: u8, entries: &[Entry]) -> Result<Items<u32>, MemFault>
    requires { sum_by (unit_count procs) entries.now ≤ 500000 }
    ensures { IfOk result (λ ends. ends ≡ ends_of procs entries.now) }
{
    let mut ends = Items::new(alloc);
    let mut end: u64 = 0;
    for entry in entries {
        end += entry.count(procs);
        ends.push(end as u32)?;
    }
    Ok(ends)
}

/// The number of the entry in which the unit with this number is, or how many entries there are.
fn place_of(ends: &[u32], index: u32) -> usize
    requires { IsNonDecreasing ends.now }
    ensures { IsPlace ends.now index result }
{
    let mut low = 0;
    let mut high = ends.len();
    'places: while low < high {
        let middle = low + (high - low) / 2;
        if ends[middle] <= index {
            low = middle + 1;
        } else {
            high = middle;
        }
    }
    low
}

/// How many units come before an entry.
fn start_of(ends: &[u32], place: usize) -> u32
    requires { place ≤ length ends.now }
    ensures { result ≡ start_of ends.now place }
{
    if place == 0 { 0 } else { ends[place - 1] }
}

impl Schedule {
    /// A schedule with these entries. `MemFault` where there is no memory for it.
    pub fn new(alloc: Global, procs: u8, entries: Entries) -> Result<Schedule, MemFault>
        requires { IsTrue (is_schedule procs entries) }
        ensures procs { IfOk result (λ schedule. schedule.procs ≡ procs) }
        ensures entries { IfOk result (λ schedule. schedule.entries ≡ entries) }
    {
        let ends = ends(alloc, procs, entries.as_slice())?;
        Ok(Schedule {
            procs,
            entries,
            ends,
        })
    }

    /// How many units there are, at most 500,000.
    pub fn units(&self) -> u32
        ensures count { result ≡ length (units_of self.now) }
        ensures few { result ≤ 500000 }
    {
        let ends = self.ends.as_slice();
        start_of(ends, ends.len())
    }

    /// The unit with this number, from 0, where there are so many. Takes no memory, and time in the
    /// logarithm of the number of entries.
    pub fn act(&self, index: u32) -> Option<Act>
        ensures unit { result ≡ slice_get (units_of self.now) index }
        ensures within { IfSome result (λ act. IsTrue (is_act self.now.procs act)) }
        ensures built { list_all is_built self.now.entries ≡ true
            → IfSome result (λ act. is_built_act act ≡ true) }
    {
        let ends = self.ends.as_slice();
        let place = place_of(ends, index);
        let entry = self.entries.get(place).copied()?;
        let start = start_of(ends, place);
        Some(entry.unit(self.procs, index - start))
    }
}
