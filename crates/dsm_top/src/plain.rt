//! The run of a program over one memory, by a list of picks.

ghost use Rattle.std.specs.Prelude.{◌≡◌, ◌≤◌, ◌<◌, ◌+◌, [], ◌++◌, length, take, List, IsTrue, Ok, OnOk, IfOk, IfErr};
ghost use Rattle.dsm_base.specs.Causes.{HasCause};
ghost use Rattle.dsm_base.specs.Output.{printed_lines};
ghost use Rattle.dsm_base.specs.Plain.{Turn};
ghost use Rattle.dsm_base.specs.declared.setup.Setup.{Setup};
ghost use Rattle.dsm_base.specs.Setups.{is_proc_count};
ghost use Rattle.dsm_base.specs.Sink.{appended};
ghost use Rattle.dsm_check.specs.Programs.{Program};
ghost use Rattle.dsm_check.specs.CheckedViews.{program_of};
ghost use Rattle.dsm_check.specs.Setups.{IsSetupOf, fitting};
ghost use Rattle.dsm_plain.specs.Machine.{IsWhole};
ghost use Rattle.dsm_sched.specs.PickTexts.{picked};
ghost use Rattle.dsm_top.specs.Ended.{left_by};
ghost use Rattle.dsm_top.specs.PickRuns.{program_run};
ghost use Rattle.dsm_top.specs.Prepared.{CanPick};
ghost use Rattle.dsm_top.specs.Runs.{WroteCut};
ghost use Rattle.dsm_top.specs.PlainRuns.{program_in, next_turns, IsAt, IsPicked};

use crate::output::put_all;
use crate::prepare::PickRun;
use crate::status::{Report, Status};
use dsm_base::{MemFault, Proc, ReadErr, Sink, Text, turn_line};
use dsm_check::Checked;
use dsm_plain::{Picked, Plain};
use dsm_sched::Picks;
use dsm_semantics::endings_by_labels;
use std::alloc::Global;

/// A run over one memory, and how many picks were applied.
#[derive(Drop)]
pub(crate) struct PlainRun<'a> {
    machine: Plain<'a>,
    units: u32,
}

impl<'a> PlainRun<'a> {
    /// A run of a program before the first pick.
    fn start(alloc: Global, program: &'a Checked, procs: u8) -> Result<PlainRun<'a>, MemFault>
        requires procs { IsTrue (is_proc_count procs) }
        requires fits { fitting (program_of program.now) procs ≡ Ok tt }
        ensures setup { IfOk result (λ run.
            IsSetupOf (program_of program.now) procs run.machine.setup) }
        ensures at { IfOk result (λ run.
            IsAt (program_of program.now) run.machine.setup run []) }
        ensures whole { IfOk result (λ run. IsWhole run.machine) }
        ensures units { IfOk result (λ run. run.units ≡ 0) }
    {
        Ok(PlainRun {
            machine: Plain::new(alloc, program, procs)?,
            units: 0,
        })
    }

    /// Applies a pick, and gives the line that it prints, if any. Out of memory no pick is counted.
    fn pick(&mut self, alloc: Global, proc: Proc) -> Result<Text, MemFault>
        requires whole { IsWhole self.old.machine }
        requires processor { proc.0 < self.old.machine.setup.procs }
        requires count { self.old.units < 500000 }
        ensures at { (program : Program) (setup : Setup) (turns : List Turn) →
            IsAt program setup self.old turns →
            OnOk result (IsAt program setup self.new (next_turns program setup turns proc)) }
        ensures line { (program : Program) (setup : Setup) (turns : List Turn) →
            IsAt program setup self.old turns → IfOk result (λ line.
            printed_lines (next_turns program setup turns proc) ≡ printed_lines turns ++ line) }
        ensures whole { OnOk result (IsWhole self.new.machine) }
        ensures units { OnOk result (self.new.units ≡ self.old.units + 1) }
        ensures err { IfErr result (λ _. self.new.units ≡ self.old.units) }
    {
        let line = match self.machine.pick(proc)? {
            Picked::Did(label) => turn_line(alloc, proc, &label)?,
            _ => Text::from_vec(Vec::new(alloc)),
        };
        self.units += 1;
        Ok(line)
    }
}

/// Applies picks to a run that has had none, each with its line put before the next. After an error a
/// part of the lines is put, or out of memory a front of them.
fn apply_picks<K: Sink>(
    alloc: Global,
    run: &mut PlainRun<'_>,
    picks: &Picks,
    out: &mut K,
) -> Result<(), ReadErr>
    requires whole { IsWhole run.old.machine }
    requires at { IsAt (program_in run.old) run.old.machine.setup run.old [] }
    requires procs { run.old.machine.setup.procs ≡ picks.now.procs }
    requires no_units { run.old.units ≡ 0 }
    ensures count { run.new.units ≤ length (picked picks.now) }
    ensures all { OnOk result (run.new.units ≡ length (picked picks.now)) }
    ensures whole { OnOk result (IsWhole run.new.machine) }
    ensures at { OnOk result (IsAt (program_in run.old) run.old.machine.setup run.new
        (program_run (program_in run.old) run.old.machine.setup
        (take run.new.units (picked picks.now)))) }
    ensures wrote { OnOk result (K.sink_holds out.new ≡ appended (K.sink_holds out.old)
        (printed_lines (program_run (program_in run.old) run.old.machine.setup
        (take run.new.units (picked picks.now))))) }
    ensures cut { IfErr result (WroteCut (K.sink_holds out.old) (K.sink_holds out.new)
        (printed_lines (program_run (program_in run.old) run.old.machine.setup
        (take run.new.units (picked picks.now))))) }
    ensures cause { HasCause (K.sink_faults out.old) (K.sink_faults out.new) result }
{
    'picks: while let Some(proc) = picks.pick(run.units) {
        let line = run.pick(alloc, proc)?;
        put_all(out, line.as_slice())?;
    }
    Ok(())
}

/// Runs a program over one memory by a list of picks.
pub(crate) fn run_picks<K: Sink>(alloc: Global, prepared: PickRun, out: &mut K) -> Report
    requires { CanPick prepared }
    ensures ran { IsPicked prepared
        (left_by K.sink_holds K.sink_faults out.old out.new result) result.status }
    ensures no_trace { result.trace ≡ [] }
{
    endings_by_labels();
    let procs = prepared.picks.procs;
    let Ok(mut run) = PlainRun::start(alloc, &prepared.program, procs) else {
        return Report::untraced(alloc, Status::Memory, 0);
    };
    let status = match apply_picks(alloc, &mut run, &prepared.picks, out) {
        Ok(()) => Status::from(run.machine.finished()),
        Err(error) => Status::from(error),
    };
    Report::untraced(alloc, status, run.units)
}
