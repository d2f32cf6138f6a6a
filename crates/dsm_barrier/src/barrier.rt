//! One barrier at its manager.

ghost use Rattle.std.specs.Prelude.{◌≡◌, ◌==◌, ◌<◌, ◌≤◌, ℕ, true, nat_lt, length, OnOk, IfOk, []};
ghost use Rattle.std.specs.List.{list_all, All};
ghost use Rattle.dsm_base.specs.Family.{family_of};
ghost use Rattle.dsm_barrier.specs.BarrierStates.{start_barrier, arrivals_of, with_arrival, have_all_come, oldest, opening_for, openings_of, once_opened, opened_where_due, openings_due};
ghost use Rattle.dsm_barrier.specs.Barriers.{barrier_of, HasLines, IsBarrierOf};

use crate::arrived::{Arrived, Waiting};
use crate::joined::lines_of_others;
use dsm_base::{Bar, MemFault, Proc};
use dsm_lines::{Opening, Openings};
use sqlite_items::Items;
use std::alloc::Global;

/// How often a barrier has opened, and by processor the arrivals that wait since then.
#[derive(Debug, Drop)]
pub struct Barrier {
    pub opened: u32,
    pub waiting: Vec<Waiting>,
}

/// The turn of a processor's oldest arrival.
fn oldest_turn(waiting: &Waiting) -> u32
    ensures { result ≡ (oldest waiting.now).turn }
{
    match waiting.as_slice() {
        [first, ..] => first.turn,
        [] => 0,
    }
}

/// Of none of so many processors an arrival waits.
fn start_waiting(alloc: Global, procs: u8) -> Result<Vec<Waiting>, MemFault>
    ensures count { IfOk result (λ waiting. length waiting.items ≡ procs) }
    ensures none { IfOk result (λ waiting. (p : ℕ) → family_of (λ q. []) waiting.items p ≡ []) }
    ensures lines { IfOk result (λ waiting. All (All HasLines) waiting.items) }
{
    let mut waiting = Vec::new(alloc);
    for _proc in 0..procs {
        let none = Items::new(alloc);
        waiting.push(none)?;
    }
    Ok(waiting)
}

/// Whether an arrival waits of each processor.
fn all_wait(waiting: &[Waiting]) -> bool
    ensures { result ≡ list_all (λ one. nat_lt 0 (length one)) waiting.now }
{
    waiting.iter().all(|one| one.len() > 0)
}

impl Barrier {
    /// A barrier to which none of so many processors has come.
    pub fn new(alloc: Global, procs: u8) -> Result<Barrier, MemFault>
        ensures state { IfOk result (λ barrier. barrier_of barrier ≡ start_barrier) }
        ensures whole { IfOk result (IsBarrierOf procs) }
    {
        let waiting = start_waiting(alloc, procs)?;
        Ok(Barrier { opened: 0, waiting })
    }

    /// Whether this is the epoch that a processor ends next.
    pub fn awaits(&self, proc: Proc, epoch: u32) -> bool
        requires { proc.0 < length self.now.waiting.items }
        ensures { result ≡ (epoch == arrivals_of (barrier_of self.now) proc.0) }
    {
        let waiting = self.waiting[proc.index()].len();
        epoch >= self.opened && (epoch - self.opened) as usize == waiting
    }

    /// Whether each processor has come since the barrier opened last.
    fn have_all_come(&self) -> bool
        ensures { result ≡ have_all_come (length self.now.waiting.items) (barrier_of self.now) }
    {
        all_wait(self.waiting.as_slice())
    }

    /// What tells a processor that the next epoch begins.
    fn opening_for(&self, alloc: Global, bar: Bar, to: Proc) -> Result<Opening, MemFault>
        requires whole { IsBarrierOf (length self.now.waiting.items) self.now }
        requires processor { to.0 < length self.now.waiting.items }
        requires opened { self.now.opened ≤ 4000000000 }
        ensures { IfOk result (λ opening. opening ≡
            opening_for (length self.now.waiting.items) bar (barrier_of self.now) to.0) }
    {
        Ok(Opening {
            to,
            turn: oldest_turn(&self.waiting[to.index()]),
            bar,
            epoch: self.opened + 1,
            lines: lines_of_others(alloc, self.waiting.as_slice(), to.index())?,
        })
    }

    /// One opening for each processor, in order.
    fn openings(&self, alloc: Global, procs: u8, bar: Bar) -> Result<Openings, MemFault>
        requires whole { IsBarrierOf procs self.now }
        requires opened { self.now.opened ≤ 4000000000 }
        ensures { IfOk result (λ openings. openings ≡ openings_of procs bar (barrier_of self.now)) }
    {
        let mut openings = Items::new(alloc);
        for to in 0..procs {
            openings.push(self.opening_for(alloc, bar, Proc(to))?)?;
        }
        Ok(openings)
    }

    /// The next epoch begins: the oldest arrival of each processor waits no more.
    fn begin_epoch(&mut self, procs: u8)
        requires whole { IsBarrierOf procs self.old }
        requires come { have_all_come procs (barrier_of self.old) ≡ true }
        requires opened { self.old.opened ≤ 4000000000 }
        ensures state { barrier_of self.new ≡ once_opened (barrier_of self.old) }
        ensures whole { IsBarrierOf procs self.new }
    {
        for proc in 0..usize::from(procs) {
            self.waiting[proc].remove(0);
        }
        self.opened += 1;
    }

    /// Opens the barrier where all have come, and answers the openings that go out.
    fn open_where_due(&mut self, alloc: Global, procs: u8, bar: Bar) -> Result<Openings, MemFault>
        requires whole { IsBarrierOf procs self.old }
        requires opened { self.old.opened ≤ 4000000000 }
        ensures openings { IfOk result (λ openings.
            openings ≡ openings_due procs bar (barrier_of self.old)) }
        ensures state { OnOk result
            (barrier_of self.new ≡ opened_where_due procs (barrier_of self.old)) }
        ensures whole { IsBarrierOf procs self.new }
    {
        if !self.have_all_come() {
            return Ok(Items::new(alloc));
        }
        let openings = self.openings(alloc, procs, bar)?;
        self.begin_epoch(procs);
        Ok(openings)
    }

    /// A processor has come. Answers the openings that now go out.
    pub fn arrive(
        &mut self,
        alloc: Global,
        procs: u8,
        bar: Bar,
        from: Proc,
        arrived: Arrived,
    ) -> Result<Openings, MemFault>
        requires whole { IsBarrierOf procs self.old }
        requires processor { from.0 < procs }
        requires lines { HasLines arrived }
        requires opened { self.old.opened ≤ 4000000000 }
        ensures openings { IfOk result (λ openings.
            openings ≡ openings_due procs bar (with_arrival (barrier_of self.old) from.0 arrived)) }
        ensures state { OnOk result (barrier_of self.new ≡
            opened_where_due procs (with_arrival (barrier_of self.old) from.0 arrived)) }
        ensures whole { IsBarrierOf procs self.new }
    {
        self.waiting[from.index()].push(arrived)?;
        self.open_where_due(alloc, procs, bar)
    }
}
