//! A lock at its home.

ghost use Rattle.std.specs.Prelude.{◌≡◌, ◌++◌, length, map, IfOk, OnOk};
ghost use Rattle.dsm_home.specs.LockStates.{start_lock, holder_of, fits_beside, front_of, behind_front, grants_of, lock_after_grants, lock_with_request, version_made, lock_after_release, mode_among, waits_for};

use crate::waiting::{Queue, Waiting};
use dsm_base::{MemFault, Mode, Proc, are_compatible};
use std::alloc::Global;
use std::marker::Model;

/// A lock at its home: the requests that were granted and whose holds haven't ended, those that wait, and
/// how many exclusive holds were given back.
#[derive(Debug, Drop)]
pub struct HomeLock {
    granted: Queue,
    queue: Queue,
    version: u32,
}

impl Model for HomeLock {
    ghost use Rattle.std.specs.Prelude.{map};
    ghost use Rattle.dsm_home.specs.LockStates.{LockState, holder_of};

    ghost Value = { LockState };

    ghost view = { λ lock. record { holders = map holder_of lock.granted; queue = lock.queue; version = lock.version } };
}

/// Whether one more may hold a lock in this mode beside those who were granted it.
fn fits_beside(granted: &[Waiting], mode: Mode) -> bool
    ensures { result ≡ fits_beside (map holder_of granted.now) mode }
{
    for one in granted {
        if !are_compatible(one.mode, mode) {
            return false;
        }
    }
    true
}

/// The mode in which a processor was granted a lock.
fn mode_among(granted: &[Waiting], proc: Proc) -> Option<Mode>
    ensures { result ≡ mode_among (map holder_of granted.now) proc.0 }
{
    for one in granted {
        if one.proc.0 == proc.0 {
            return Some(one.mode);
        }
    }
    None
}

/// The version that a hold leaves. `MemFault` comes where it doesn't fit its number.
fn version_made(mode: Mode, version: u32) -> Result<u32, MemFault>
    ensures { IfOk result (λ made. made ≡ version_made mode version) }
{
    match mode {
        Mode::Shared => Ok(version),
        Mode::Excl => version.checked_add(1).ok_or(MemFault),
    }
}

/// Grants a lock to the front of its queue, as far as it may be granted beside those who were granted it
/// before. Answers whose requests those are.
fn grant_front(alloc: Global, granted: &mut Queue, queue: &mut Queue) -> Result<Queue, MemFault>
    ensures front { IfOk result (λ front. front ≡ front_of (map holder_of granted.old) queue.old) }
    ensures holders { OnOk result (map holder_of granted.new ≡ map holder_of granted.old ++
        map holder_of (front_of (map holder_of granted.old) queue.old)) }
    ensures queue { OnOk result (queue.new ≡
        behind_front (map holder_of granted.old) queue.old) }
{
    let mut front = Queue::new(alloc);
    while !queue.is_empty() {
        let first = queue.as_slice()[0];
        if !fits_beside(granted.as_slice(), first.mode) {
            break;
        }
        queue.drop_first();
        granted.push(first)?;
        front.push(first)?;
    }
    Ok(front)
}

impl HomeLock {
    /// A lock that nobody has asked for.
    pub fn new(alloc: Global) -> HomeLock
        ensures { result ≡ start_lock }
    {
        HomeLock {
            granted: Queue::new(alloc),
            queue: Queue::new(alloc),
            version: 0,
        }
    }

    /// How many exclusive holds were given back.
    pub fn version(&self) -> u32
        ensures { result ≡ self.now.version }
    {
        self.version
    }

    /// How many requests wait.
    pub fn waiting(&self) -> usize
        ensures { result ≡ length self.now.queue }
    {
        self.queue.len()
    }

    /// The mode in which a processor holds the lock, or was granted it.
    pub fn mode_of(&self, proc: Proc) -> Option<Mode>
        ensures { result ≡ mode_among self.now.holders proc.0 }
    {
        mode_among(self.granted.as_slice(), proc)
    }

    /// Whether a processor waits for the lock.
    pub fn waits(&self, proc: Proc) -> bool
        ensures { result ≡ waits_for self.now proc.0 }
    {
        self.queue.of(proc).is_some()
    }

    /// Puts a request at the end of the queue. `MemFault` comes out of memory.
    pub fn request(&mut self, waiting: Waiting) -> Result<(), MemFault>
        ensures { OnOk result (self.new ≡ lock_with_request self.old waiting) }
    {
        self.queue.push(waiting)
    }

    /// The hold of a processor in this mode ends. `MemFault` comes where the version doesn't fit its
    /// number; the lock is then of no more use.
    pub fn release(&mut self, proc: Proc, mode: Mode) -> Result<(), MemFault>
        ensures { OnOk result (self.new ≡ lock_after_release self.old proc.0 mode) }
    {
        let version = version_made(mode, self.version)?;
        self.version = version;
        self.granted.let_go(proc);
        Ok(())
    }

    /// Grants the lock to the front of the queue, as far as it may be granted. Answers whose requests
    /// those are, in order. `MemFault` comes out of memory; the lock is then of no more use.
    pub fn grant(&mut self, alloc: Global) -> Result<Queue, MemFault>
        ensures granted { IfOk result (λ granted. granted ≡ grants_of self.old) }
        ensures lock { OnOk result (self.new ≡ lock_after_grants self.old) }
    {
        grant_front(alloc, &mut self.granted, &mut self.queue)
    }
}
