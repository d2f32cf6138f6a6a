//! Stores that tell nothing of what they hold.

ghost use Rattle.std.specs.Prelude.{◌≡◌, ◌<◌, ◌+◌, ◌%◌, IfOk, IfSome, IsTrue, OnOk, length, slice_index, slice_set};
ghost use Rattle.dsm_base.specs.Causes.{HasCause, HasFailureCause};
ghost use Rattle.dsm_base.specs.Store.{IsSlot, IsBlock, IsMark, IsMarkOrNone, IsUnmarked};
ghost use Rattle.dsm_base.specs.Store.{Clears, Marks, ChangesSlot, Stands, Writes, MakesRoom, TellsMark};
ghost use Rattle.dsm_stores.specs.Mutes.{raised};

use crate::count::{counted, counted_room, raise};
use dsm_base::{Failed, ReadErr, Store};

/// The bytes of a block.
const BLOCK: u32 = 512;

/// A store in front of another one, which tells nothing of what that one holds, and whose reads give
/// one byte of each slot raised by one, if they are to.
#[derive(Debug, Drop)]
pub struct MuteStore<S: Store> {
    inner: S,
    at: Option<u32>,
    faults: u64,
}

impl<S: Store> MuteStore<S> {
    /// Reads give the byte `at` of a slot raised by one modulo 256.
    pub fn new(inner: S, at: Option<u32>) -> MuteStore<S>
        ensures inner { result.inner ≡ inner }
        ensures at { result.at ≡ at }
        ensures faults { result.faults ≡ 0 }
    {
        MuteStore {
            inner,
            at,
            faults: 0,
        }
    }

    /// Whether the slot is known not to be marked. What this store tells its callers doesn't say it,
    /// so it asks.
    fn is_free(&mut self, slot: u8) -> bool
        ensures unmarked { IsTrue result → IsUnmarked slot (S.store_holds self.new.inner) }
        ensures holds { S.store_holds self.new.inner ≡ S.store_holds self.old.inner }
        ensures room { S.store_room self.new.inner ≡ S.store_room self.old.inner }
        ensures same { self.new ≡ record self.old { inner = self.new.inner } }
    {
        match self.inner.marked() {
            Ok(Some((marked, _))) => marked != slot,
            Ok(None) => true,
            Err(Failed) => false,
        }
    }
}

/// Raises a byte of a block by one modulo 256.
fn raise_byte(bytes: &mut [u8], place: usize)
    requires within { place < length bytes.old }
    ensures { bytes.new ≡ slice_set bytes.old place ((slice_index bytes.old place + 1) % 256) }
{
    bytes[place] = bytes[place].wrapping_add(1);
}

impl<S: Store> Store for MuteStore<S> {
    ghost use Rattle.std.specs.Prelude.{None};

    ghost store_holds = { λ _. None };

    ghost store_room = { λ store. S.store_room store.inner };

    ghost store_faults = { λ store. store.faults };

    fn clear(&mut self) -> Result<(), Failed>
        ensures room { S.store_room self.new.inner ≡ S.store_room self.old.inner }
        ensures cause { HasFailureCause self.old.faults self.new.faults result }
        ensures passed { Clears (S.store_holds self.old.inner) (S.store_holds self.new.inner)
            result }
    {
        let answer = self.inner.clear();
        counted(&mut self.faults, answer)
    }

    fn room(&mut self, slot: u8, blocks: u32) -> Result<(), ReadErr>
        requires slot { IsSlot slot }
        ensures room { MakesRoom slot blocks (S.store_room self.old.inner)
            (S.store_room self.new.inner) result }
        ensures cause { HasCause self.old.faults self.new.faults result }
        ensures passed { Stands (S.store_holds self.old.inner) (S.store_holds self.new.inner)
            (ChangesSlot slot) }
        ensures refused { ¬ IsUnmarked slot (S.store_holds self.old.inner) →
            S.store_holds self.new.inner ≡ S.store_holds self.old.inner }
    {
        if !self.is_free(slot) {
            raise(&mut self.faults);
            return Err(ReadErr::Failed);
        }
        let answer = self.inner.room(slot, blocks);
        counted_room(&mut self.faults, answer)
    }

    fn write(&mut self, slot: u8, block: u32, bytes: &[u8]) -> Result<(), Failed>
        requires slot { IsSlot slot }
        requires room { block < S.store_room self.old.inner slot }
        requires whole { IsBlock bytes.now }
        ensures room { S.store_room self.new.inner ≡ S.store_room self.old.inner }
        ensures cause { HasFailureCause self.old.faults self.new.faults result }
        ensures passed { Writes slot block bytes.now (S.store_holds self.old.inner)
            (S.store_holds self.new.inner) result }
        ensures refused { ¬ IsUnmarked slot (S.store_holds self.old.inner) →
            S.store_holds self.new.inner ≡ S.store_holds self.old.inner }
    {
        if !self.is_free(slot) {
            raise(&mut self.faults);
            return Err(Failed);
        }
        let answer = self.inner.write(slot, block, bytes);
        counted(&mut self.faults, answer)
    }

    fn mark(&mut self, slot: u8, blocks: u32) -> Result<(), Failed>
        requires { IsMark (slot, blocks) }
        ensures room { S.store_room self.new.inner ≡ S.store_room self.old.inner }
        ensures cause { HasFailureCause self.old.faults self.new.faults result }
        ensures passed { Marks (slot, blocks) (S.store_holds self.old.inner)
            (S.store_holds self.new.inner) result }
    {
        let answer = self.inner.mark(slot, blocks);
        counted(&mut self.faults, answer)
    }

    fn marked(&mut self) -> Result<Option<(u8, u32)>, Failed>
        ensures range { IfOk result IsMarkOrNone }
        ensures room { S.store_room self.new.inner ≡ S.store_room self.old.inner }
        ensures cause { HasFailureCause self.old.faults self.new.faults result }
        ensures kept { S.store_holds self.new.inner ≡ S.store_holds self.old.inner }
        ensures given { IfOk result (TellsMark (S.store_holds self.old.inner)) }
    {
        let answer = self.inner.marked();
        counted(&mut self.faults, answer)
    }

    fn read(&mut self, slot: u8, block: u32, into: &mut [u8]) -> Result<(), Failed>
        requires slot { IsSlot slot }
        requires whole { IsBlock into.old }
        ensures whole { IsBlock into.new }
        ensures room { S.store_room self.new.inner ≡ S.store_room self.old.inner }
        ensures cause { HasFailureCause self.old.faults self.new.faults result }
        ensures kept { S.store_holds self.new.inner ≡ S.store_holds self.old.inner }
        ensures given { OnOk result (IfSome (S.store_holds self.old.inner)
            (λ contents. into.new ≡ raised self.old.at block (contents.blocks slot block))) }
    {
        let answer = self.inner.read(slot, block, into);
        if let Some(at) = self.at
            && at / BLOCK == block
        {
            raise_byte(into, (at % BLOCK) as usize);
        }
        counted(&mut self.faults, answer)
    }

    fn faults(&self) -> u64 {
        self.faults
    }
}
