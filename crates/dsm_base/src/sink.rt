//! Sinks: what takes bytes.

ghost use Rattle.std.specs.Prelude.{◌≡◌, ◌≤◌, Some, [], ◌∷◌, ◌++◌, length, IfOk, OnOk, OnErr, IsErrOf, true, ◌↔◌};

use crate::errors::{MemFault, ReadErr};
use crate::plan::{CallKind, FaultPlan};
use crate::text::Text;
use std::alloc::Global;

/// Takes bytes. What it holds is known only where it tells.
pub trait Sink {
    ghost use Rattle.std.specs.Prelude.{List, ℕ, Option};
    ghost use Rattle.dsm_base.specs.Causes.{HasCause};
    ghost use Rattle.dsm_base.specs.Sink.{PutTakes};

    /// All that it has taken, where it tells.
    ghost sink_holds: { Self → Option (List ℕ) };

    /// How often it has failed.
    ghost sink_faults: { Self → ℕ };

    /// Takes a front of the bytes and answers its length, at least 1 where there are bytes.
    /// After an error it has taken nothing; `Failed` comes only where its count of failures rose.
    fn put(&mut self, bytes: &[u8]) -> Result<usize, ReadErr>
        ensures taken { PutTakes (sink_holds self.old) (sink_holds self.new) bytes.now result }
        ensures cause { HasCause (sink_faults self.old) (sink_faults self.new) result };

    /// How often it has failed.
    fn faults(&self) -> u64
        ensures { result ≡ sink_faults self.now };
}

/// A sink in memory, which always tells.
#[derive(Debug, Drop)]
pub struct MemSink {
    bytes: Vec<u8>,
    piece: usize,
    plan: FaultPlan,
    faults: u64,
    ghost some: { 1 ≤ piece },
}

impl MemSink {
    ghost use Rattle.dsm_base.specs.declared.plan.CallKind.{CallKind};

    /// An empty sink that takes at most `piece` bytes a call.
    pub fn new(alloc: Global, piece: usize) -> MemSink
        requires { 1 ≤ piece }
        ensures bytes { result.bytes.items ≡ [] }
        ensures piece { result.piece ≡ piece }
        ensures plan { result.plan ≡ [] }
        ensures faults { result.faults ≡ 0 }
    {
        MemSink {
            bytes: Vec::new(alloc),
            piece,
            plan: FaultPlan::new(alloc),
            faults: 0,
        }
    }

    /// The nth call of this kind from now on fails.
    pub fn fail(&mut self, call: CallKind, nth: u32) -> Result<(), MemFault>
        requires { 1 ≤ nth }
        ensures plan { OnOk result (self.new.plan ≡ self.old.plan ++
            record { call = call; left = nth } ∷ []) }
        ensures same { self.new ≡ record self.old { plan = self.new.plan } }
    {
        self.plan.add(call, nth)
    }

    /// All that was taken.
    pub fn bytes(&self) -> &[u8]
        ensures { result.now ≡ self.now.bytes.items }
    {
        self.bytes.as_slice()
    }
}

impl Sink for MemSink {
    ghost use Rattle.std.specs.Prelude.{◌≡◌, ◌↔◌, Some, IsErrOf, IfOk, OnOk, true, length, min};
    ghost use Rattle.dsm_base.specs.declared.plan.CallKind.{CallKind};
    ghost use Rattle.dsm_base.specs.declared.errors.ReadErr.{ReadErr};
    ghost use Rattle.dsm_base.specs.Causes.{HasCause};
    ghost use Rattle.dsm_base.specs.Sink.{PutTakes};
    ghost use Rattle.dsm_base.specs.Plan.{is_due, counted};

    ghost sink_holds = { λ sink. Some sink.bytes.items };

    ghost sink_faults = { λ sink. sink.faults };

    fn put(&mut self, bytes: &[u8]) -> Result<usize, ReadErr>
        ensures taken { PutTakes (Some self.old.bytes.items) (Some self.new.bytes.items) bytes.now
            result }
        ensures cause { HasCause self.old.faults self.new.faults result }
        ensures failed { IsErrOf result ReadErr.Failed ↔
            (is_due CallKind.Put self.old.plan ≡ true) }
        ensures counted { self.new.plan ≡ counted CallKind.Put self.old.plan }
        ensures count { IfOk result (λ count. count ≡ min (length bytes.now) self.old.piece) }
        ensures piece { self.new.piece ≡ self.old.piece }
        ensures calm { OnOk result (self.new.faults ≡ self.old.faults) }
    {
        if self.plan.count(CallKind::Put) {
            self.faults = self.faults.saturating_add(1);
            return Err(ReadErr::Failed);
        }
        let taken = bytes.len().min(self.piece);
        self.bytes.extend_from_slice(&bytes[..taken])?;
        Ok(taken)
    }

    fn faults(&self) -> u64 {
        self.faults
    }
}
