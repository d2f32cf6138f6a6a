//! Locks that a thread wants.

ghost use Rattle.std.specs.Prelude.{◌≡◌, [], None, Some, MatchOption};
ghost use Rattle.dsm_semantics.specs.States.{ask, take_lock, give};
ghost use Rattle.dsm_semantics.specs.Semantics;
ghost use Rattle.dsm_semantics.specs.Semantics.{lock_number, below_index};
ghost use Rattle.dsm_interpreter.specs.Sound.{IsSoundItem};
ghost use Rattle.dsm_interpreter.specs.Threads.{Becomes, Steps, state_in, lock_of};

use crate::execution::Execution;
use crate::item::LockAt;
use crate::location::member_number;
use crate::operands::{pop_value, top_value};
use dsm_base::{Fault, Lock, Mode, Want};

impl LockAt {
    /// The line of the lock's name.
    fn line(self) -> u32
        ensures { result ≡ Semantics.lock_line (lock_of self) }
    {
        match self {
            LockAt::Single(_, line) => line,
            LockAt::Member(_, line) => line,
        }
    }
}

impl Execution<'_> {
    /// The lock, where its index is one of the array's.
    fn find_lock(&self, lock: LockAt) -> Option<Lock>
        requires { IsSoundItem (give (lock_of lock)) }
        ensures { MatchOption result (lock_number (lock_of lock) (state_in self.now).operands ≡
            None) (λ found. lock_number (lock_of lock) (state_in self.now).operands ≡
            Some found.0) }
    {
        match lock {
            LockAt::Single(lock, _) => Some(lock),
            LockAt::Member(array, _) => {
                let number = member_number(array, top_value(&self.frame.operands))?;
                Some(Lock(number as u16))
            }
        }
    }

    pub fn ask(&self, lock: LockAt, mode: Mode) -> Want
        requires { IsSoundItem (give (lock_of lock)) }
        ensures { Steps self.now self.now (λ s. Semantics.act [] s (ask (lock_of lock) mode))
            (Some result) }
    {
        match self.find_lock(lock) {
            Some(found) => Want::Ask(found, mode, lock.line()),
            None => Want::Stop(Fault::Index, lock.line()),
        }
    }

    pub fn take(&self, lock: LockAt, mode: Mode) -> Want
        requires { IsSoundItem (give (lock_of lock)) }
        ensures { Steps self.now self.now (λ s. Semantics.act [] s (take_lock (lock_of lock) mode))
            (Some result) }
    {
        match self.find_lock(lock) {
            Some(found) => Want::Take(found, mode),
            None => Want::Stop(Fault::Index, lock.line()),
        }
    }

    pub fn give(&self, lock: LockAt) -> Want
        requires { IsSoundItem (give (lock_of lock)) }
        ensures { Steps self.now self.now (λ s. Semantics.act [] s (give (lock_of lock)))
            (Some result) }
    {
        match self.find_lock(lock) {
            Some(found) => Want::Give(found, lock.line()),
            None => Want::Stop(Fault::Index, lock.line()),
        }
    }

    /// Drops the lock's index, if it has one.
    pub fn finish_lock(&mut self, lock: LockAt)
        ensures { Becomes self.old self.new (λ s.
            record s { operands = below_index (lock_of lock) s.operands }) }
    {
        if let LockAt::Member(_, _) = lock {
            pop_value(&mut self.frame.operands);
        }
    }
}
