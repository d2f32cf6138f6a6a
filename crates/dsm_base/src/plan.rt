//! Which calls of an object in memory are to fail.

ghost use Rattle.std.specs.Prelude.{◌≡◌, ◌≤◌, [], ◌∷◌, ◌++◌, ◌==◌, OnOk, OnErr};

use crate::errors::MemFault;
use std::alloc::Global;
use std::marker::Model;

/// The kinds of call that can be made to fail.
#[derive(Clone, Copy, Debug, PartialEq, Eq)]
pub enum CallKind {
    Read,
    Put,
    Clear,
    Room,
    Write,
    Mark,
    Marked,
}

/// After how many more calls of a kind one fails.
#[derive(Clone, Copy, Debug)]
pub struct PlannedFault {
    pub call: CallKind,
    pub left: u32,
}

impl PlannedFault {
    ghost use Rattle.dsm_base.specs.Plan.{counted_one};

    /// The same after a call of this kind.
    fn counted(self, call: CallKind) -> PlannedFault
        ensures { result ≡ counted_one call self }
    {
        if self.call == call {
            PlannedFault {
                call,
                left: self.left.saturating_sub(1),
            }
        } else {
            self
        }
    }
}

/// The calls that are to fail.
#[derive(Debug, Drop)]
pub struct FaultPlan {
    faults: Vec<PlannedFault>,
}

impl Model for FaultPlan {
    ghost use Rattle.std.specs.Prelude.{List};
    ghost use Rattle.dsm_base.specs.declared.plan.PlannedFault.{PlannedFault};

    ghost Value = { List PlannedFault };

    ghost view = { λ plan. plan.faults.items };
}

impl FaultPlan {
    ghost use Rattle.dsm_base.specs.Plan.{is_due, counted};

    /// No call fails.
    pub fn new(alloc: Global) -> FaultPlan
        ensures { result ≡ [] }
    {
        FaultPlan {
            faults: Vec::new(alloc),
        }
    }

    /// The nth call of this kind from now on fails.
    pub fn add(&mut self, call: CallKind, nth: u32) -> Result<(), MemFault>
        ensures ok { OnOk result (self.new ≡ self.old ++
            record { call = call; left = nth } ∷ []) }
        ensures err { OnErr result (self.new ≡ self.old) }
    {
        self.faults.push(PlannedFault { call, left: nth })?;
        Ok(())
    }

    /// Counts a call, and answers whether it fails.
    pub fn count(&mut self, call: CallKind) -> bool
        ensures due { result ≡ is_due call self.old }
        ensures counted { self.new ≡ counted call self.old }
    {
        let due = self
            .faults
            .iter()
            .any(|fault| fault.call == call && fault.left == 1);
        for fault in self.faults.iter_mut() {
            *fault = fault.counted(call);
        }
        due
    }
}
