//! Stores in memory.

ghost use Rattle.std.specs.Prelude.{◌≡◌, ◌<◌, ◌≤◌, ◌++◌, [], ◌∷◌, None, length, slice_set};
ghost use Rattle.std.specs.Prelude.{get_or, replicate, OnOk};
ghost use Rattle.dsm_base.specs.Store.{IsBlock, IsMarkOrNone};

use crate::errors::{Failed, MemFault, ReadErr};
use crate::plan::{CallKind, FaultPlan};
use crate::store::Store;
use std::alloc::Global;

/// The bytes of a block.
type Block = [u8; 512];

/// A store in memory, which always tells. A block that was never written reads as zeros.
#[derive(Debug, Drop)]
pub struct MemStore {
    first: Vec<Block>,
    second: Vec<Block>,
    third: Vec<Block>,
    mark: Option<(u8, u32)>,
    plan: FaultPlan,
    faults: u64,
    ghost in_range: { IsMarkOrNone mark },
}

/// Replaces the bytes of a block.
fn put(blocks: &mut Vec<Block>, block: u32, bytes: &[u8])
    requires within { block < length blocks.old.items }
    requires whole { IsBlock bytes.now }
    ensures { blocks.new.items ≡ slice_set blocks.old.items block bytes.now }
{
    blocks[block as usize].copy_from_slice(bytes);
}

/// Copies the bytes of a block.
fn get(blocks: &Vec<Block>, block: u32, into: &mut [u8])
    requires { IsBlock into.old }
    ensures { into.new ≡ get_or blocks.now.items block (replicate 512 0) }
{
    match blocks.get(block as usize) {
        Some(bytes) => into.copy_from_slice(bytes),
        None => into.copy_from_slice(&[0; 512]),
    }
}

/// Gives a slot so many blocks.
fn resize(blocks: &mut Vec<Block>, count: u32) -> Result<(), MemFault>
    ensures { OnOk result (length blocks.new.items ≡ count) }
{
    blocks.resize(count as usize, [0; 512])?;
    Ok(())
}

impl MemStore {
    ghost use Rattle.std.specs.Prelude.{◌↔◌, true, IsTrue};
    ghost use Rattle.dsm_base.specs.declared.plan.CallKind.{CallKind};
    ghost use Rattle.dsm_base.specs.Causes.{Rose};
    ghost use Rattle.dsm_base.specs.Plan.{is_due, counted};

    /// An empty store, of which nothing is marked.
    pub fn new(alloc: Global) -> MemStore
        ensures first { result.first.items ≡ [] }
        ensures second { result.second.items ≡ [] }
        ensures third { result.third.items ≡ [] }
        ensures mark { result.mark ≡ None }
        ensures plan { result.plan ≡ [] }
        ensures faults { result.faults ≡ 0 }
    {
        MemStore {
            first: Vec::new(alloc),
            second: Vec::new(alloc),
            third: Vec::new(alloc),
            mark: None,
            plan: FaultPlan::new(alloc),
            faults: 0,
        }
    }

    /// The nth call of this kind from now on fails.
    pub fn fail(&mut self, call: CallKind, nth: u32) -> Result<(), MemFault>
        requires { 1 ≤ nth }
        ensures plan { OnOk result (self.new.plan ≡ self.old.plan ++
            record { call = call; left = nth } ∷ []) }
        ensures same { self.new ≡ record self.old { plan = self.new.plan } }
    {
        self.plan.add(call, nth)
    }

    /// Counts a call, and answers whether it fails.
    fn fails(&mut self, call: CallKind) -> bool
        ensures due { result ≡ is_due call self.old.plan }
        ensures plan { self.new.plan ≡ counted call self.old.plan }
        ensures same { self.new ≡ record self.old
            { plan = self.new.plan; faults = self.new.faults } }
        ensures later { self.old.faults ≤ self.new.faults }
        ensures rose { IsTrue result → Rose self.old.faults self.new.faults }
    {
        let due = self.plan.count(call);
        if due {
            self.faults = self.faults.saturating_add(1);
        }
        due
    }
}

impl Store for MemStore {
    ghost use Rattle.std.specs.Prelude.{Some};
    ghost use Rattle.dsm_base.specs.MemStore.{held_by, room_of};

    ghost store_holds = { λ store. Some (held_by record {
      first = store.first.items;
      second = store.second.items;
      third = store.third.items;
    } store.mark) };

    ghost store_room = { λ store. room_of record {
      first = store.first.items;
      second = store.second.items;
      third = store.third.items;
    } };

    ghost store_faults = { λ store. store.faults };

    fn clear(&mut self) -> Result<(), Failed> {
        if self.fails(CallKind::Clear) {
            return Err(Failed);
        }
        self.mark = None;
        Ok(())
    }

    fn room(&mut self, slot: u8, blocks: u32) -> Result<(), ReadErr> {
        if self.fails(CallKind::Room) {
            return Err(ReadErr::Failed);
        }
        match slot {
            0 => resize(&mut self.first, blocks)?,
            1 => resize(&mut self.second, blocks)?,
            _ => resize(&mut self.third, blocks)?,
        }
        Ok(())
    }

    fn write(&mut self, slot: u8, block: u32, bytes: &[u8]) -> Result<(), Failed> {
        if self.fails(CallKind::Write) {
            return Err(Failed);
        }
        match slot {
            0 => put(&mut self.first, block, bytes),
            1 => put(&mut self.second, block, bytes),
            _ => put(&mut self.third, block, bytes),
        }
        Ok(())
    }

    fn mark(&mut self, slot: u8, blocks: u32) -> Result<(), Failed> {
        if self.fails(CallKind::Mark) {
            return Err(Failed);
        }
        self.mark = Some((slot, blocks));
        Ok(())
    }

    fn marked(&mut self) -> Result<Option<(u8, u32)>, Failed> {
        if self.fails(CallKind::Marked) {
            return Err(Failed);
        }
        Ok(self.mark)
    }

    fn read(&mut self, slot: u8, block: u32, into: &mut [u8]) -> Result<(), Failed> {
        if self.fails(CallKind::Read) {
            return Err(Failed);
        }
        match slot {
            0 => get(&self.first, block, into),
            1 => get(&self.second, block, into),
            _ => get(&self.third, block, into),
        }
        Ok(())
    }

    fn faults(&self) -> u64 {
        self.faults
    }
}
