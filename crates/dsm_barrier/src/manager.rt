//! The barriers that a processor manages.

ghost use Rattle.std.specs.Prelude.{◌≡◌, ◌==◌, ◌<◌, ◌≤◌, ℕ, true, [], map, length, if◌then◌else◌, OnOk, IfOk};
ghost use Rattle.std.specs.List.{All};
ghost use Rattle.dsm_base.specs.Family.{update, family_of};
ghost use Rattle.dsm_lines.specs.LineLists.{are_lines};
ghost use Rattle.dsm_barrier.specs.BarrierStates.{start_barrier, arrivals_of, counts, arrived_in, with_arrival, opened_where_due, openings_due};
ghost use Rattle.dsm_barrier.specs.Barriers.{barrier_of, IsBarrierOf, AreBarriersOf};

use crate::arrived::Arrived;
use crate::barrier::Barrier;
use dsm_base::{Bar, MemFault, Proc, Setup};
use dsm_lines::{LineList, Openings};
use sqlite_items::Items;
use std::alloc::Global;

/// The barriers, of which those that the processor manages count, and by processor the turn of its
/// last arrival that counted.
#[derive(Drop)]
pub struct Manager {
    alloc: Global,
    pub(crate) me: Proc,
    pub(crate) procs: u8,
    pub(crate) last: Items<u32>,
    pub(crate) barriers: Vec<Barrier>,
    ghost kept: { AreBarriersOf procs last barriers.items },
}

/// A zero for each processor.
#[tactic(auto, using(dsm_base::proofs::Families::family_of_replicate))]
fn zeros(alloc: Global, procs: u8) -> Result<Items<u32>, MemFault>
    ensures zeros { IfOk result (λ numbers. family_of (λ p. 0) numbers ≡ (λ p. 0)) }
    ensures count { IfOk result (λ numbers. length numbers ≡ procs) }
{
    Ok(Items::from_vec(vec![in alloc; 0; usize::from(procs)]?))
}

/// So many barriers of so many processors, to which none has come.
fn start_barriers(alloc: Global, procs: u8, bars: u8) -> Result<Vec<Barrier>, MemFault>
    ensures count { IfOk result (λ barriers. length barriers.items ≡ bars) }
    ensures states { IfOk result (λ barriers. (bar : ℕ) →
        family_of (λ b. start_barrier) (map barrier_of barriers.items) bar ≡ start_barrier) }
    ensures each { IfOk result (λ barriers. All (IsBarrierOf procs) barriers.items) }
{
    let mut barriers = Vec::new(alloc);
    for _bar in 0..bars {
        barriers.push(Barrier::new(alloc, procs)?)?;
    }
    Ok(barriers)
}

impl Manager {
    ghost use Rattle.dsm_barrier.specs.Managers.{barriers_of, last_of, bar_count, manages, IsSameManager};

    /// The manager that a processor of a setup is, before anyone comes. `MemFault` comes out of
    /// memory.
    pub fn new(alloc: Global, me: Proc, setup: &Setup) -> Result<Manager, MemFault>
        ensures me { IfOk result (λ manager. manager.me ≡ me) }
        ensures procs { IfOk result (λ manager. manager.procs ≡ setup.now.procs) }
        ensures bars { IfOk result (λ manager. bar_count manager ≡ setup.now.bars) }
        ensures barriers { IfOk result (λ manager. barriers_of manager ≡ (λ bar. start_barrier)) }
        ensures last { IfOk result (λ manager. last_of manager ≡ (λ p. 0)) }
    {
        let last = zeros(alloc, setup.procs)?;
        let barriers = start_barriers(alloc, setup.procs, setup.bars)?;
        Ok(Manager {
            alloc,
            me,
            procs: setup.procs,
            last,
            barriers,
        })
    }

    /// Whether this is the epoch of a barrier that a processor ends next.
    pub fn awaits(&self, from: Proc, bar: Bar, epoch: u32) -> bool
        requires processor { from.0 < self.now.procs }
        requires barrier { bar.0 < bar_count self.now }
        ensures { result ≡ (epoch == arrivals_of (barriers_of self.now bar.0) from.0) }
    {
        self.barriers[bar.index()].awaits(from, epoch)
    }

    /// A processor has come in this turn to a barrier that is managed here, and ends this epoch of
    /// it with these lines. Answers the openings that now go out: one for each processor where with
    /// this one all have come, with the lines of the others. An arrival that doesn't count changes
    /// nothing: one of a turn that isn't over that of the processor's last one that counted, or of
    /// another epoch than the one that the processor ends next. `MemFault` comes out of memory.
    pub fn arrive(
        &mut self,
        from: Proc,
        turn: u32,
        bar: Bar,
        epoch: u32,
        lines: &LineList,
    ) -> Result<Openings, MemFault>
        requires processor { from.0 < self.old.procs }
        requires barrier { bar.0 < bar_count self.old }
        requires managed { manages self.old bar.0 ≡ true }
        requires lines { are_lines lines.now ≡ true }
        requires turn { turn ≤ 4000000000 }
        requires epoch { epoch ≤ 4000000000 }
        ensures openings { IfOk result (λ openings. openings ≡
            (if counts (barriers_of self.old bar.0) (last_of self.old from.0) from.0 turn epoch
            then openings_due self.old.procs bar
            (with_arrival (barriers_of self.old bar.0) from.0 (arrived_in turn lines.now))
            else [])) }
        ensures barriers { OnOk result (barriers_of self.new ≡
            (if counts (barriers_of self.old bar.0) (last_of self.old from.0) from.0 turn epoch
            then update (barriers_of self.old) bar.0 (opened_where_due self.old.procs
            (with_arrival (barriers_of self.old bar.0) from.0 (arrived_in turn lines.now)))
            else barriers_of self.old)) }
        ensures last { OnOk result (last_of self.new ≡
            (if counts (barriers_of self.old bar.0) (last_of self.old from.0) from.0 turn epoch
            then update (last_of self.old) from.0 turn
            else last_of self.old)) }
        ensures same { IsSameManager self.old self.new }
    {
        let last = self.last.as_slice()[from.index()];
        if turn <= last || !self.barriers[bar.index()].awaits(from, epoch) {
            return Ok(Items::new(self.alloc));
        }
        let arrived = Arrived {
            turn: turn + 1,
            lines: lines.copy(self.alloc)?,
        };
        self.last.set(from.index(), turn);
        self.barriers[bar.index()].arrive(self.alloc, self.procs, bar, from, arrived)
    }
}
