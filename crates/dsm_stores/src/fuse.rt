//! Stores that fail for good after some calls.

ghost use Rattle.std.specs.Prelude.{◌≡◌, ◌≤◌, ◌<◌, ◌-◌, ◌↔◌, Err, IfOk, OnOk, IsTrue, MatchBool};
ghost use Rattle.dsm_base.specs.Causes.{HasCause, HasFailureCause, Rose};
ghost use Rattle.dsm_base.specs.Store.{IsSlot, IsBlock, IsMark, IsMarkOrNone, IsUnmarked};
ghost use Rattle.dsm_base.specs.Store.{Clears, Marks, ChangesSlot, Stands, Writes, MakesRoom, ReadsBlock, TellsMark};
ghost use Rattle.dsm_base.specs.declared.errors.ReadErr.{ReadErr};
ghost use Rattle.dsm_stores.specs.Fuses.{Burns, Fails};

use crate::count::{counted, counted_room, raise};
use dsm_base::{Failed, ReadErr, Store};

/// A store that passes some calls on to another one and then fails every call, without touching the
/// other one. It tells what the other one holds.
#[derive(Debug, Drop)]
pub struct Fuse<S: Store> {
    inner: S,
    left: u32,
    faults: u64,
}

impl<S: Store> Fuse<S> {
    /// So many calls are passed on.
    pub fn new(inner: S, calls: u32) -> Fuse<S>
        ensures inner { result.inner ≡ inner }
        ensures left { result.left ≡ calls }
        ensures faults { result.faults ≡ 0 }
    {
        Fuse {
            inner,
            left: calls,
            faults: 0,
        }
    }

    /// Takes one call, and answers whether it is to be passed on. One that isn't is a failure.
    fn passes(&mut self) -> bool
        ensures passes { IsTrue result ↔ (1 ≤ self.old.left) }
        ensures same { self.new ≡ record self.old
            { left = self.old.left - 1; faults = self.new.faults } }
        ensures later { self.old.faults ≤ self.new.faults }
        ensures rose { MatchBool result (self.new.faults ≡ self.old.faults)
            (Rose self.old.faults self.new.faults) }
    {
        if self.left == 0 {
            raise(&mut self.faults);
            return false;
        }
        self.left -= 1;
        true
    }
}

impl<S: Store> Store for Fuse<S> {
    ghost store_holds = { λ fuse. S.store_holds fuse.inner };

    ghost store_room = { λ fuse. S.store_room fuse.inner };

    ghost store_faults = { λ fuse. fuse.faults };

    fn clear(&mut self) -> Result<(), Failed>
        ensures cleared { Clears (S.store_holds self.old.inner) (S.store_holds self.new.inner) result }
        ensures room { S.store_room self.new.inner ≡ S.store_room self.old.inner }
        ensures cause { HasFailureCause self.old.faults self.new.faults result }
        ensures fine { OnOk result (self.new.faults ≡ self.old.faults) }
        ensures burns { Burns self.old.left self.new.left self.old.inner self.new.inner
            (Fails result) (HasFailureCause
            (S.store_faults self.old.inner) (S.store_faults self.new.inner) result) }
    {
        if !self.passes() {
            return Err(Failed);
        }
        let answer = self.inner.clear();
        counted(&mut self.faults, answer)
    }

    fn room(&mut self, slot: u8, blocks: u32) -> Result<(), ReadErr>
        requires slot { IsSlot slot }
        requires unmarked { IsUnmarked slot (S.store_holds self.old.inner) }
        ensures changes { Stands (S.store_holds self.old.inner) (S.store_holds self.new.inner)
            (ChangesSlot slot) }
        ensures room { MakesRoom slot blocks (S.store_room self.old.inner) (S.store_room self.new.inner)
            result }
        ensures cause { HasCause self.old.faults self.new.faults result }
        ensures fine { OnOk result (self.new.faults ≡ self.old.faults) }
        ensures burns { Burns self.old.left self.new.left self.old.inner self.new.inner
            (result ≡ Err ReadErr.Failed) (HasCause
            (S.store_faults self.old.inner) (S.store_faults self.new.inner) result) }
    {
        if !self.passes() {
            return Err(ReadErr::Failed);
        }
        let answer = self.inner.room(slot, blocks);
        counted_room(&mut self.faults, answer)
    }

    fn write(&mut self, slot: u8, block: u32, bytes: &[u8]) -> Result<(), Failed>
        requires slot { IsSlot slot }
        requires unmarked { IsUnmarked slot (S.store_holds self.old.inner) }
        requires room { block < S.store_room self.old.inner slot }
        requires whole { IsBlock bytes.now }
        ensures writes { Writes slot block bytes.now (S.store_holds self.old.inner)
            (S.store_holds self.new.inner) result }
        ensures room { S.store_room self.new.inner ≡ S.store_room self.old.inner }
        ensures cause { HasFailureCause self.old.faults self.new.faults result }
        ensures fine { OnOk result (self.new.faults ≡ self.old.faults) }
        ensures burns { Burns self.old.left self.new.left self.old.inner self.new.inner
            (Fails result) (HasFailureCause
            (S.store_faults self.old.inner) (S.store_faults self.new.inner) result) }
    {
        if !self.passes() {
            return Err(Failed);
        }
        let answer = self.inner.write(slot, block, bytes);
        counted(&mut self.faults, answer)
    }

    fn mark(&mut self, slot: u8, blocks: u32) -> Result<(), Failed>
        requires { IsMark (slot, blocks) }
        ensures marks { Marks (slot, blocks) (S.store_holds self.old.inner)
            (S.store_holds self.new.inner) result }
        ensures room { S.store_room self.new.inner ≡ S.store_room self.old.inner }
        ensures cause { HasFailureCause self.old.faults self.new.faults result }
        ensures fine { OnOk result (self.new.faults ≡ self.old.faults) }
        ensures burns { Burns self.old.left self.new.left self.old.inner self.new.inner
            (Fails result) (HasFailureCause
            (S.store_faults self.old.inner) (S.store_faults self.new.inner) result) }
    {
        if !self.passes() {
            return Err(Failed);
        }
        let answer = self.inner.mark(slot, blocks);
        counted(&mut self.faults, answer)
    }

    fn marked(&mut self) -> Result<Option<(u8, u32)>, Failed>
        ensures told { IfOk result (TellsMark (S.store_holds self.old.inner)) }
        ensures range { IfOk result IsMarkOrNone }
        ensures same { S.store_holds self.new.inner ≡ S.store_holds self.old.inner }
        ensures room { S.store_room self.new.inner ≡ S.store_room self.old.inner }
        ensures cause { HasFailureCause self.old.faults self.new.faults result }
        ensures fine { OnOk result (self.new.faults ≡ self.old.faults) }
        ensures burns { Burns self.old.left self.new.left self.old.inner self.new.inner
            (Fails result) (HasFailureCause
            (S.store_faults self.old.inner) (S.store_faults self.new.inner) result) }
    {
        if !self.passes() {
            return Err(Failed);
        }
        let answer = self.inner.marked();
        counted(&mut self.faults, answer)
    }

    fn read(&mut self, slot: u8, block: u32, into: &mut [u8]) -> Result<(), Failed>
        requires slot { IsSlot slot }
        requires whole { IsBlock into.old }
        ensures block { OnOk result
            (ReadsBlock slot block (S.store_holds self.old.inner) into.new) }
        ensures whole { IsBlock into.new }
        ensures same { S.store_holds self.new.inner ≡ S.store_holds self.old.inner }
        ensures room { S.store_room self.new.inner ≡ S.store_room self.old.inner }
        ensures cause { HasFailureCause self.old.faults self.new.faults result }
        ensures fine { OnOk result (self.new.faults ≡ self.old.faults) }
        ensures burns { Burns self.old.left self.new.left self.old.inner self.new.inner
            (Fails result) (HasFailureCause
            (S.store_faults self.old.inner) (S.store_faults self.new.inner) result) }
    {
        if !self.passes() {
            return Err(Failed);
        }
        let answer = self.inner.read(slot, block, into);
        counted(&mut self.faults, answer)
    }

    fn faults(&self) -> u64 {
        self.faults
    }
}
