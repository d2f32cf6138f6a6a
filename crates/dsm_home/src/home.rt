//! The locks that a processor is home of.

ghost use Rattle.std.specs.Prelude.{◌≡◌, ◌<◌, length, map, replicate, IfOk, OnOk};
ghost use Rattle.dsm_lines.specs.Places.{cells_in};
ghost use Rattle.dsm_lines.specs.Copies.{AreNumbered, newer_lines};
ghost use Rattle.dsm_home.specs.LockStates.{start_lock, grants_of, lock_with_request, lock_after_release, mode_among, waits_for};
ghost use Rattle.dsm_home.specs.HomeStates.{start_home, home_after_ask, home_after_give};
ghost use Rattle.dsm_home.specs.Homes.{home_state, home_pieces, lock_count, IsSameHome};

use crate::lock::HomeLock;
use crate::waiting::{Queue, Waiting};
use dsm_base::{Lock, MemFault, Mode, Proc};
use dsm_lines::{BindTable, LineImage, LineList};
use std::alloc::Global;
use std::rc::Rc;

/// The states of the locks and their lines; those that the processor is home of count.
#[derive(Drop)]
pub struct Home {
    alloc: Global,
    locks: Vec<HomeLock>,
    lines: LineImage,
}

/// As many locks that nobody has asked for.
fn new_locks(alloc: Global, count: usize) -> Result<Vec<HomeLock>, MemFault>
    ensures { IfOk result (λ locks. locks.items ≡ replicate count start_lock) }
{
    let mut locks = Vec::new(alloc);
    for _lock in 0..count {
        locks.push(HomeLock::new(alloc))?;
    }
    Ok(locks)
}

impl Home {
    /// So many locks that nobody has asked for; their lines are zeros. `MemFault` comes out of memory.
    pub fn new(alloc: Global, table: Rc<BindTable>, locks: u16) -> Result<Home, MemFault>
        ensures state { IfOk result (λ home. home_state home ≡ start_home) }
        ensures count { IfOk result (λ home. lock_count home ≡ locks) }
        ensures pieces { IfOk result (λ home. home_pieces home ≡ table.value) }
    {
        Ok(Home {
            alloc,
            locks: new_locks(alloc, usize::from(locks))?,
            lines: LineImage::new(alloc, table)?,
        })
    }

    /// How many exclusive holds of a lock were given back.
    pub fn version(&self, lock: Lock) -> u32
        requires { lock.0 < lock_count self.now }
        ensures { result ≡ ((home_state self.now).locks lock.0).version }
    {
        self.locks[lock.index()].version()
    }

    /// The mode in which a processor holds a lock, or was granted it.
    pub fn holds(&self, lock: Lock, proc: Proc) -> Option<Mode>
        requires { lock.0 < lock_count self.now }
        ensures { result ≡ mode_among ((home_state self.now).locks lock.0).holders proc.0 }
    {
        self.locks[lock.index()].mode_of(proc)
    }

    /// Whether a processor waits for a lock.
    pub fn waits(&self, lock: Lock, proc: Proc) -> bool
        requires { lock.0 < lock_count self.now }
        ensures { result ≡ waits_for ((home_state self.now).locks lock.0) proc.0 }
    {
        self.locks[lock.index()].waits(proc)
    }

    /// How many wait for a lock.
    pub fn waiting(&self, lock: Lock) -> usize
        requires { lock.0 < lock_count self.now }
        ensures { result ≡ length ((home_state self.now).locks lock.0).queue }
    {
        self.locks[lock.index()].waiting()
    }

    /// The lines of a lock that were stored to after a version. `MemFault` comes out of memory.
    pub fn newer(&self, lock: Lock, version: u32) -> Result<LineList, MemFault>
        ensures { IfOk result (λ lines. lines ≡ newer_lines (home_pieces self.now) (home_state self.now).stamps (home_state self.now).values lock version) }
    {
        self.lines.newer(self.alloc, lock, version)
    }

    /// The values of a line's cells; none where there is no such line.
    pub fn values(&self, line: u32) -> &[i64]
        ensures { result.now ≡ map (home_state self.now).values (cells_in (home_pieces self.now) line) }
    {
        self.lines.values(line)
    }

    /// Someone asks for a lock. Answers whose requests are granted now, in order. `MemFault` comes out of
    /// memory; the home is then of no more use.
    #[tactic(auto, using(dsm_base::proofs::Families::family_of_set))]
    pub fn ask(&mut self, lock: Lock, request: Waiting) -> Result<Queue, MemFault>
        requires { lock.0 < lock_count self.old }
        ensures granted { IfOk result (λ granted. granted ≡
            grants_of (lock_with_request ((home_state self.old).locks lock.0) request)) }
        ensures state { OnOk result (home_state self.new ≡
            home_after_ask (home_state self.old) lock request) }
        ensures same { IsSameHome self.old self.new }
    {
        let state = &mut self.locks[lock.index()];
        state.request(request)?;
        state.grant(self.alloc)
    }

    /// A processor gives a lock back, whose hold in this mode has made this version with these lines.
    /// Answers whose requests are granted now, in order. `MemFault` comes out of memory, or where the
    /// version doesn't fit its number; the home is then of no more use.
    #[tactic(auto, using(dsm_base::proofs::Families::family_of_set))]
    pub fn give(
        &mut self,
        lock: Lock,
        proc: Proc,
        mode: Mode,
        version: u32,
        lines: &LineList,
    ) -> Result<Queue, MemFault>
        requires lock { lock.0 < lock_count self.old }
        requires numbered { AreNumbered (home_pieces self.old) lines.now }
        ensures granted { IfOk result (λ granted. granted ≡
            grants_of (lock_after_release ((home_state self.old).locks lock.0) proc.0 mode)) }
        ensures state { OnOk result (home_state self.new ≡
            home_after_give (home_pieces self.old) (home_state self.old) lock proc.0 mode version lines.now) }
        ensures same { IsSameHome self.old self.new }
    {
        let state = &mut self.locks[lock.index()];
        state.release(proc, mode)?;
        let granted = state.grant(self.alloc)?;
        self.lines.apply(version, lines);
        Ok(granted)
    }
}
