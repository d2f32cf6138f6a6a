//! The machine of one memory, and its picks.

ghost use Rattle.std.specs.Prelude.{◌≡◌, ◌<◌, Ok, IsTrue, OnOk, IfOk};
ghost use Rattle.dsm_base.specs.Plain.{plain_start, is_possible};
ghost use Rattle.dsm_base.specs.Setups.{is_proc_count};
ghost use Rattle.dsm_base.specs.declared.label.Want.{Want};
ghost use Rattle.dsm_check.specs.CheckedViews.{program_of};
ghost use Rattle.dsm_check.specs.Setups.{IsSetupOf, fitting};
ghost use Rattle.dsm_semantics.specs.Programs.{first_states};
ghost use Rattle.dsm_plain.specs.Machine.{machine_of, semantics_of, want_at, IsWhole, IsSameProgram};
ghost use Rattle.dsm_plain.specs.Waiting.{IsPick, TurnPrintsLine};

use crate::start::{start_memory, start_rights, start_threads, start_versions};
use crate::waiting::{Picked, blockers, late};
use dsm_base::{Bar, Lock, MemFault, Mode, Numbers, Pieces, Proc, Rights, Setup, Want, pieces_of};
use dsm_check::Checked;
use dsm_interpreter::PlainThread;
use sqlite_items::Items;
use std::alloc::Global;

/// The machine of one memory.
#[derive(Drop)]
pub struct Plain<'a> {
    pub checked: &'a Checked,
    pub setup: Setup,
    pub(crate) alloc: Global,
    /// The thread of each processor, right before its next labelled step.
    pub(crate) threads: Vec<PlainThread<'a>>,
    pub(crate) rights: Vec<Rights>,
    pub(crate) memory: Items<i64>,
    pub(crate) versions: Numbers,
    pub(crate) pieces: Pieces,
}

impl<'a> Plain<'a> {
    /// The machine of a program before the first turn, for so many processors. `MemFault` comes out of
    /// memory.
    pub fn new(alloc: Global, checked: &'a Checked, procs: u8) -> Result<Plain<'a>, MemFault>
        requires procs { IsTrue (is_proc_count procs) }
        requires fits { fitting (program_of checked.now) procs ≡ Ok tt }
        ensures setup { IfOk result (λ plain.
            IsSetupOf (program_of checked.now) procs plain.setup) }
        ensures machine { IfOk result (λ plain.
            machine_of plain ≡ plain_start (first_states (program_of checked.now) procs)) }
        ensures program { IfOk result (λ plain. plain.checked.now ≡ checked.now) }
        ensures whole { IfOk result IsWhole }
    {
        let setup = checked.setup(alloc, procs)?;
        let threads = start_threads(alloc, checked, procs)?;
        let rights = start_rights(alloc, procs, setup.locks, setup.bars)?;
        let memory = start_memory(alloc, setup.cells)?;
        let versions = start_versions(alloc, setup.locks)?;
        let pieces = pieces_of(alloc, &setup)?;
        Ok(Plain {
            checked,
            setup,
            alloc,
            threads,
            rights,
            memory,
            versions,
            pieces,
        })
    }

    /// The processor makes its turn, where its thread can make one. `MemFault` comes out of memory, and
    /// where a version or a count of arrivals doesn't fit its number.
    pub fn pick(&mut self, proc: Proc) -> Result<Picked, MemFault>
        requires whole { IsWhole self.old }
        requires processor { proc.0 < self.old.setup.procs }
        ensures setup { self.new.setup ≡ self.old.setup }
        ensures program { self.new.checked.now ≡ self.old.checked.now }
        ensures picked { IfOk result (IsPick self.old.setup (semantics_of self.old)
            (machine_of self.old) proc.0 (machine_of self.new)) }
        ensures line { IfOk result TurnPrintsLine }
        ensures whole { OnOk result (IsWhole self.new) }
    {
        let want = self.want(proc);
        match want {
            Want::Take(lock, mode) => self.take(proc, lock, mode),
            Want::Cross(bar) => self.cross(proc, bar),
            _ => self.turn(proc, want),
        }
    }

    /// What the processor's thread wants.
    fn want(&self, proc: Proc) -> Want
        requires whole { IsWhole self.now }
        requires processor { proc.0 < self.now.setup.procs }
        ensures { result ≡ want_at self.now proc.0 }
    {
        self.threads[proc.index()].want()
    }

    /// Takes a lock, where the others' holds allow it.
    fn take(&mut self, proc: Proc, lock: Lock, mode: Mode) -> Result<Picked, MemFault>
        requires whole { IsWhole self.old }
        requires processor { proc.0 < self.old.setup.procs }
        requires want { want_at self.old proc.0 ≡ Want.Take lock mode }
        ensures same { IsSameProgram self.old self.new }
        ensures picked { IfOk result (IsPick self.old.setup (semantics_of self.old)
            (machine_of self.old) proc.0 (machine_of self.new)) }
        ensures line { IfOk result TurnPrintsLine }
        ensures whole { OnOk result (IsWhole self.new) }
    {
        let holders = blockers(self.alloc, self.rights.as_slice(), proc, lock, mode)?;
        if holders.is_empty() {
            self.turn(proc, Want::Take(lock, mode))
        } else {
            Ok(Picked::Blocked(holders))
        }
    }

    /// Crosses a barrier, where all have come to it.
    fn cross(&mut self, proc: Proc, bar: Bar) -> Result<Picked, MemFault>
        requires whole { IsWhole self.old }
        requires processor { proc.0 < self.old.setup.procs }
        requires want { want_at self.old proc.0 ≡ Want.Cross bar }
        ensures same { IsSameProgram self.old self.new }
        ensures picked { IfOk result (IsPick self.old.setup (semantics_of self.old)
            (machine_of self.old) proc.0 (machine_of self.new)) }
        ensures line { IfOk result TurnPrintsLine }
        ensures whole { OnOk result (IsWhole self.new) }
    {
        let epoch = self.rights[proc.index()].crossings_at(bar);
        let missing = late(self.alloc, self.rights.as_slice(), epoch, bar)?;
        if missing.is_empty() {
            self.turn(proc, Want::Cross(bar))
        } else {
            Ok(Picked::Missing(missing))
        }
    }

    /// The turn of a processor whose thread wants so, where nothing keeps it waiting.
    fn turn(&mut self, proc: Proc, want: Want) -> Result<Picked, MemFault>
        requires whole { IsWhole self.old }
        requires processor { proc.0 < self.old.setup.procs }
        requires want { want ≡ want_at self.old proc.0 }
        requires possible { IsTrue
            (is_possible self.old.setup.procs (machine_of self.old) proc.0 want) }
        ensures same { IsSameProgram self.old self.new }
        ensures picked { IfOk result (IsPick self.old.setup (semantics_of self.old)
            (machine_of self.old) proc.0 (machine_of self.new)) }
        ensures line { IfOk result TurnPrintsLine }
        ensures whole { OnOk result (IsWhole self.new) }
    {
        match self.label(proc, want)? {
            None => Ok(Picked::Over),
            Some(label) => {
                self.complete(proc, &label)?;
                Ok(Picked::Did(label))
            }
        }
    }
}
