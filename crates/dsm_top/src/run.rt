//! The run of a program by a schedule.

ghost use Rattle.std.specs.Prelude.{◌≡◌, ◌≤◌, ◌++◌, List, [], length, IfOk, OnOk, IfErr, IsTrue};
ghost use Rattle.dsm_base.specs.Causes.{HasCause};
ghost use Rattle.dsm_base.specs.Setups.{is_proc_count};
ghost use Rattle.dsm_base.specs.Sink.{appended};
ghost use Rattle.dsm_laws_history.specs.Output.{output_of};
ghost use Rattle.dsm_network.specs.World.{setup_of, groups_of, units_of, IsRunOf};
ghost use Rattle.dsm_sched.specs.ScheduleTexts.{units_of as acts_of};
ghost use Rattle.dsm_base.specs.declared.act.Act.{Act};
ghost use Rattle.dsm_base.specs.declared.setup.Setup.{Setup};
ghost use Rattle.dsm_net.specs.declared.trace.Group.{Group};
ghost use Rattle.dsm_net.specs.Fits.{FitsUnits, run_of};
ghost use Rattle.dsm_laws_protocol.specs.Holding.{AreWithin};
ghost use Rattle.dsm_check.specs.CheckedViews.{program_of};
ghost use Rattle.dsm_check.specs.Programs.{Program};
ghost use Rattle.dsm_check.specs.Setups.{IsSetupOf};
ghost use Rattle.dsm_code.specs.Machine.{first_state};
ghost use Rattle.dsm_code.specs.Valid.{is_valid};
ghost use Rattle.dsm_laws_code.specs.Programs.{code_of};
ghost use Rattle.dsm_semantics.specs.Programs.{first_states, threads_of};
ghost use Rattle.dsm_top.specs.Lawful.{IsLawful};
ghost use Rattle.dsm_top.specs.Ended.{left_by};
ghost use Rattle.dsm_top.specs.Runs.{IsWholeWorld, code_kind, first_by, first_in, IsMadeBy, HasAll, FitsFirst, IsSameRun, WroteCut, WroteCutShowing, shown_of, IsScheduled};

use crate::lines::put_lines;
use crate::prepare::ScheduledRun;
use crate::shown::{Asked, put_shown};
use crate::status::{Report, Status};
use dsm_base::{MemFault, ReadErr, Sink};
use dsm_check::Checked;
use dsm_compile::compile;
use dsm_laws_history::output;
use dsm_laws_protocol::own_parts;
use dsm_laws_same::compiled_has_runs_of_tree;
use dsm_network::World;
use dsm_sched::Schedule;
use dsm_thread::{CodeMaker, Thread};
use std::alloc::Global;
use std::rc::Rc;

/// Applies the units of a schedule to a world that has had none, each with its lines put before the
/// next. After an error a part of the lines is put, or out of memory a front of them.
pub(crate) fn apply_units<K: Sink>(
    world: &mut World<CodeMaker>,
    schedule: &Schedule,
    out: &mut K,
) -> Result<(), ReadErr>
    requires whole { IsWholeWorld world.old }
    requires none { IsRunOf code_kind first_by [] world.old }
    requires no_trace { groups_of world.old ≡ [] }
    requires procs { (setup_of world.old).procs ≡ schedule.now.procs }
    ensures same { IsSameRun world.old world.new }
    ensures whole { OnOk result (IsWholeWorld world.new) }
    ensures count { units_of world.new ≤ length (acts_of schedule.now) }
    ensures all { OnOk result (units_of world.new ≡ length (acts_of schedule.now)) }
    ensures made { OnOk result (IsMadeBy (acts_of schedule.now) world.new) }
    ensures fits { FitsFirst world.new (acts_of schedule.now) }
    ensures wrote { OnOk result (K.sink_holds out.new ≡
        appended (K.sink_holds out.old) (output_of (groups_of world.new))) }
    ensures cut { IfErr result (WroteCut (K.sink_holds out.old) (K.sink_holds out.new)
        (output_of (groups_of world.new))) }
    ensures cause { HasCause (K.sink_faults out.old) (K.sink_faults out.new) result }
{
    'acts: while let Some(act) = schedule.act(world.units()) {
        let lines = world.apply(act)?;
        put_lines(out, &lines)?;
    }
    Ok(())
}

/// Applies the units of a schedule to a world that has had none, and puts what was asked for behind
/// their lines. After an error a part of all that is put, or out of memory a front of the lines.
fn go_through<K: Sink>(
    alloc: Global,
    world: &mut World<CodeMaker>,
    schedule: &Schedule,
    asked: Asked,
    out: &mut K,
) -> Result<(), ReadErr>
    requires whole { IsWholeWorld world.old }
    requires none { IsRunOf code_kind first_by [] world.old }
    requires no_trace { groups_of world.old ≡ [] }
    requires procs { (setup_of world.old).procs ≡ schedule.now.procs }
    ensures same { IsSameRun world.old world.new }
    ensures whole { OnOk result (IsWholeWorld world.new) }
    ensures count { units_of world.new ≤ length (acts_of schedule.now) }
    ensures all { OnOk result (units_of world.new ≡ length (acts_of schedule.now)) }
    ensures made { OnOk result (IsMadeBy (acts_of schedule.now) world.new) }
    ensures fits { FitsFirst world.new (acts_of schedule.now) }
    ensures wrote { OnOk result (K.sink_holds out.new ≡ appended (K.sink_holds out.old)
        (output_of (groups_of world.new) ++ shown_of asked world.new)) }
    ensures cut { IfErr result (WroteCutShowing (K.sink_holds out.old) (K.sink_holds out.new)
        (output_of (groups_of world.new)) (shown_of asked world.new)
        (HasAll (acts_of schedule.now) world.new)) }
    ensures cause { HasCause (K.sink_faults out.old) (K.sink_faults out.new) result }
{
    apply_units(world, schedule, out)?;
    put_shown(alloc, asked, world, out)
}

/// The world of a program before its first unit.
fn start(alloc: Global, program: &Checked, procs: u8) -> Result<World<CodeMaker>, MemFault>
    requires { IsTrue (is_proc_count procs) }
    ensures whole { IfOk result IsWholeWorld }
    ensures none { IfOk result (IsRunOf code_kind first_by []) }
    ensures no_trace { IfOk result (λ world. groups_of world ≡ []) }
    ensures setup { IfOk result (λ world.
        IsSetupOf (program_of program.now) procs (setup_of world)) }
    ensures first { IfOk result (λ world. first_in world ≡
        first_state (code_of (program_of program.now)) (setup_of world).procs) }
    ensures valid { IfOk result (λ _. IsTrue (is_valid (code_of (program_of program.now)))) }
{
    let setup = Rc::new(alloc, program.setup(alloc, procs)?)?;
    let maker = CodeMaker::new(alloc, compile(alloc, program)?)?;
    World::new(alloc, setup, maker)
}

/// All laws of traces that fit their units, for the threads of a program.
fn laws()
    ensures { (program : Program) (setup : Setup) (acts : List Act) (trace : List Group)
        (fits : FitsUnits setup (first_states program setup.procs) (threads_of program) acts trace) →
        AreWithin setup acts →
        IsLawful setup (first_states program setup.procs) (threads_of program)
        (run_of setup (first_states program setup.procs) (threads_of program) fits.done).net trace }
{}

/// Runs a program by a schedule, and puts what is asked for behind the lines.
pub(crate) fn run<K: Sink>(alloc: Global, prepared: ScheduledRun, out: &mut K) -> Report
    ensures { IsScheduled prepared
        (left_by K.sink_holds K.sink_faults out.old out.new result) result.status }
{
    laws();
    compiled_has_runs_of_tree();
    output::<Thread>();
    own_parts::<Thread>();
    let Ok(mut world) = start(alloc, &prepared.program, prepared.schedule.procs) else {
        return Report::untraced(alloc, Status::Memory, 0);
    };
    let status = match go_through(alloc, &mut world, &prepared.schedule, prepared.asked, out) {
        Ok(()) => Status::from(world.finished()),
        Err(error) => Status::from(error),
    };
    let units = world.units();
    Report {
        status,
        trace: world.into_trace(),
        units,
    }
}
