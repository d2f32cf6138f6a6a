//! The log of versions and arrivals.

ghost use Rattle.std.specs.Prelude.{◌≡◌, ◌≤◌, ◌+◌, ◌-◌, ◌^◌, ◌/◌, [], filter, length, min, nat_le, OnOk, IfOk};
ghost use Rattle.std.specs.Option.{option_copied};
ghost use Rattle.dsm_base.specs.Family.{update};
ghost use Rattle.dsm_segments.specs.Entries.{IsRising, segments};
ghost use Rattle.dsm_verlog.specs.Logs.{versions_of, arrivals_of, with_version, with_arrival, versions_over, versions_behind, arrivals_from, lines_of_epoch};

use dsm_base::{Bar, Lock, MemFault};
use dsm_lines::{Arrival, LineList, Version, Versions};
use dsm_segments::Segments;
use std::alloc::Global;

/// The versions of locks that a processor made and its arrivals at barriers, as far as another may still
/// ask for them.
#[derive(Drop)]
pub struct VersionLog {
    versions: Segments<Version>,
    arrivals: Segments<Arrival>,
}

impl VersionLog {
    /// An empty log. It takes memory only when something is pushed.
    pub fn new(alloc: Global) -> VersionLog
        ensures versions { result.versions ≡ [] }
        ensures arrivals { result.arrivals ≡ [] }
    {
        VersionLog {
            versions: Segments::new(alloc),
            arrivals: Segments::new(alloc),
        }
    }

    /// Adds a version of a lock, at the same cost whatever the log holds. `MemFault` is out of memory.
    pub fn push(&mut self, lock: Lock, version: u32, lines: LineList) -> Result<(), MemFault>
        ensures pushed { OnOk result
            (versions_of self.new ≡ with_version (versions_of self.old) lock version lines) }
        ensures arrivals { self.new.arrivals ≡ self.old.arrivals }
    {
        let made = Version {
            lock,
            version,
            lines,
        };
        self.versions.push(lock.index(), made)
    }

    /// Adds an arrival, which ends an epoch of a barrier, at the same cost whatever the log holds.
    /// `MemFault` is out of memory.
    pub fn push_arrival(&mut self, bar: Bar, epoch: u32, lines: LineList) -> Result<(), MemFault>
        ensures pushed { OnOk result
            (arrivals_of self.new ≡ with_arrival (arrivals_of self.old) bar epoch lines) }
        ensures versions { self.new.versions ≡ self.old.versions }
    {
        let made = Arrival { bar, epoch, lines };
        self.arrivals.push(bar.index(), made)
    }

    /// Copies of the versions of a lock over this one, in the order of pushing. `MemFault` is out of
    /// memory.
    pub fn since(&self, lock: Lock, version: u32) -> Result<Versions, MemFault>
        ensures { IfOk result
            (λ found. found ≡ versions_over version (versions_of self.now lock.0)) }
    {
        self.versions.since(lock.index(), version)
    }

    /// The lines that were last pushed for an epoch of a barrier, where they are kept.
    pub fn arrivals(&self, bar: Bar, epoch: u32) -> Option<&LineList>
        ensures { option_copied result ≡ lines_of_epoch epoch (arrivals_of self.now bar.0) }
    {
        match self.arrivals.latest(bar.index(), epoch) {
            Some(arrival) => Some(&arrival.lines),
            None => None,
        }
    }

    /// Lets the versions of a lock go up to this one, from the front. It takes no memory.
    pub fn prune(&mut self, lock: Lock, upto: u32)
        ensures front { versions_of self.new ≡ update (versions_of self.old) lock.0
            (versions_behind upto (versions_of self.old lock.0)) }
        ensures pruned { IsRising (λ made. made.version) (versions_of self.old lock.0)
            → versions_of self.new lock.0 ≡ versions_over upto (versions_of self.old lock.0) }
        ensures arrivals { self.new.arrivals ≡ self.old.arrivals }
    {
        self.versions.prune(lock.index(), upto);
    }

    /// Lets the arrivals at a barrier go whose epochs are below this one, from the front. It takes no
    /// memory.
    pub fn prune_arrivals(&mut self, bar: Bar, below: u32)
        ensures front { arrivals_of self.new ≡ update (arrivals_of self.old) bar.0
            (arrivals_from below (arrivals_of self.old bar.0)) }
        ensures pruned { IsRising (λ made. made.epoch) (arrivals_of self.old bar.0)
            → arrivals_of self.new bar.0
            ≡ filter (λ made. nat_le below made.epoch) (arrivals_of self.old bar.0) }
        ensures versions { self.new.versions ≡ self.old.versions }
    {
        if let Some(last) = below.checked_sub(1) {
            self.arrivals.prune(bar.index(), last);
        }
    }

    /// How many versions of a lock are kept, at most as many as 64 bits tell.
    pub fn kept(&self, lock: Lock) -> usize
        ensures { result ≡ min (length (versions_of self.now lock.0)) (2 ^ 64 - 1) }
    {
        self.versions.count(lock.index())
    }

    /// How many segments of up to 64 hold them.
    pub fn segments(&self, lock: Lock) -> usize
        ensures value { result ≡ length (segments self.now.versions lock.0) }
        ensures few { result ≤ length (versions_of self.now lock.0) / 64 + 2 }
    {
        self.versions.segments(lock.index())
    }
}
