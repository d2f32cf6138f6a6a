//! What a log keeps.

ghost use Rattle.std.specs.Prelude.{◌≡◌, IfOk};

use dsm_base::{LoggedGrant, LoggedOpening, MemFault, Record};
use dsm_lines::{Arrival, Version};
use std::alloc::Global;

/// An entry of a log: it has the number by which it is asked for and let go, and can be copied.
pub trait Numbered: Sized + Drop {
    ghost use Rattle.std.specs.Prelude.{◌≡◌, ℕ, IfOk};

    /// A version, an epoch or a turn.
    ghost log_number: { Self → ℕ };

    fn number(&self) -> u32
        ensures { result ≡ log_number self.now };

    /// The same entry again.
    fn copy(&self, alloc: Global) -> Result<Self, MemFault>
        ensures { IfOk result (λ copy. copy ≡ self.now) };
}

impl Numbered for Version {
    ghost log_number = { λ version. version.version };

    fn number(&self) -> u32 {
        self.version
    }

    fn copy(&self, alloc: Global) -> Result<Version, MemFault> {
        Ok(Version {
            lock: self.lock,
            version: self.version,
            lines: self.lines.copy(alloc)?,
        })
    }
}

impl Numbered for Arrival {
    ghost log_number = { λ arrival. arrival.epoch };

    fn number(&self) -> u32 {
        self.epoch
    }

    fn copy(&self, alloc: Global) -> Result<Arrival, MemFault> {
        Ok(Arrival {
            bar: self.bar,
            epoch: self.epoch,
            lines: self.lines.copy(alloc)?,
        })
    }
}

impl Numbered for LoggedGrant {
    ghost log_number = { λ grant. grant.turn };

    fn number(&self) -> u32 {
        self.turn
    }

    fn copy(&self, _alloc: Global) -> Result<LoggedGrant, MemFault> {
        Ok(*self)
    }
}

impl Numbered for LoggedOpening {
    ghost log_number = { λ opening. opening.turn };

    fn number(&self) -> u32 {
        self.turn
    }

    fn copy(&self, _alloc: Global) -> Result<LoggedOpening, MemFault> {
        Ok(*self)
    }
}

impl Numbered for Record {
    ghost log_number = { λ taken. taken.turn };

    fn number(&self) -> u32 {
        self.turn
    }

    fn copy(&self, _alloc: Global) -> Result<Record, MemFault> {
        Ok(*self)
    }
}
