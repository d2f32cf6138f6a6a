//! Laws of histories: what processors that bring newer lines do, without a common memory, is a run over
//! one memory, and which lines they bring is told by that run.
#![tactic(auto)]

ghost use Rattle.std.specs.Prelude.{◌≡◌, ℕ, List};
ghost use Rattle.dsm_base.specs.declared.act.Act.{Act};
ghost use Rattle.dsm_base.specs.declared.setup.Setup.{Setup};
ghost use Rattle.dsm_base.specs.Output.{printed_lines};
ghost use Rattle.dsm_net.specs.declared.trace.Group.{Group};
ghost use Rattle.dsm_net.specs.Fits.{FitsUnits, run_of};
ghost use Rattle.dsm_net.specs.Story.{history};
ghost use Rattle.dsm_laws_runs.specs.Versions.{AllAskFirst};
ghost use Rattle.dsm_laws_protocol.specs.Holding.{AreWithin};
ghost use Rattle.dsm_laws_history.specs.BarrierLines.{HasBarrierLines};
ghost use Rattle.dsm_laws_history.specs.Desks.{AllHaveHandled};
ghost use Rattle.dsm_laws_history.specs.Granted.{AllTakesAreGranted};
ghost use Rattle.dsm_laws_history.specs.NewerLines.{HasNewerLines};
ghost use Rattle.dsm_laws_history.specs.OneMemory.{IsOneMemory};
ghost use Rattle.dsm_laws_history.specs.Openings.{OpenWhenAllCame, OpeningsAreInPlace};
ghost use Rattle.dsm_laws_history.specs.Order.{AllWaitInOrder};
ghost use Rattle.dsm_laws_history.specs.Output.{output_of};

use dsm_base::{Task, TaskMaker};

/// The threads of a maker ask for a lock before they take it, which most laws here have as a premise.
pub fn made_threads<M: TaskMaker>()
    ensures { (maker : M) (setup : Setup) →
        AllAskFirst setup (M.first maker setup.procs) M.Made.kind.semantics }
{}

/// The history of a trace that fits its units is a run over one memory, with which each processor
/// agrees: its turns are its turns in that run, and its copy has the memory's values where it may load.
pub fn one_memory<T: Task>()
    ensures { (setup : Setup) (first : ℕ → T.State) (acts : List Act) (trace : List Group) →
        AllAskFirst setup first T.kind.semantics →
        FitsUnits setup first T.kind.semantics acts trace → AreWithin setup acts →
        IsOneMemory setup first T.kind.semantics trace }
{}

/// The lines that go out in a trace that fits its units are those that its history prints, in that order.
pub fn output<T: Task>()
    ensures { (setup : Setup) (first : ℕ → T.State) (acts : List Act) (trace : List Group) →
        FitsUnits setup first T.kind.semantics acts trace →
        output_of trace ≡ printed_lines (history trace) }
{}

/// Each take has the version and the lines of a grant for that turn and lock which was delivered to its
/// processor before, unless the processor is the home of the lock itself.
pub fn takes_are_granted<T: Task>()
    ensures { (setup : Setup) (first : ℕ → T.State) (acts : List Act) (trace : List Group) →
        FitsUnits setup first T.kind.semantics acts trace → AllTakesAreGranted setup trace }
{}

/// What a home knows of its locks is what each processor has done up to a turn of it: who has asked for
/// a lock and not given it back holds it or waits, once, and the version counts the exclusive holds that
/// were given back. What it was told of later turns is under way to it.
pub fn desks<T: Task>()
    ensures { (setup : Setup) (first : ℕ → T.State) (acts : List Act) (trace : List Group) →
        AllAskFirst setup first T.kind.semantics →
        (fits : FitsUnits setup first T.kind.semantics acts trace) → AreWithin setup acts →
        AllHaveHandled setup (history trace)
        (run_of setup first T.kind.semantics fits.done).net }
{}

/// Whoever waits for a lock at its home waits in the order in which the requests came there.
pub fn desks_in_order<T: Task>()
    ensures { (setup : Setup) (first : ℕ → T.State) (acts : List Act) (trace : List Group) →
        (fits : FitsUnits setup first T.kind.semantics acts trace) →
        AllWaitInOrder setup trace (run_of setup first T.kind.semantics fits.done).net }
{}

/// A crossing brings exactly the lines with which the other processors came to the barrier at the end of
/// the epoch before, in order of their numbers: those to which they stored in it, as they were then. So
/// do the arrival and the opening before it, and what a manager keeps of arrivals.
pub fn barrier_lines<T: Task>()
    ensures { (setup : Setup) (first : ℕ → T.State) (acts : List Act) (trace : List Group) →
        AllAskFirst setup first T.kind.semantics →
        (fits : FitsUnits setup first T.kind.semantics acts trace) → AreWithin setup acts →
        HasBarrierLines setup first T.kind.semantics
        (run_of setup first T.kind.semantics fits.done).net trace }
{}

/// What a manager knows of its barriers is what each processor has done up to a turn of it: each arrival
/// in these turns has counted, and the barrier has opened as often as all have come in them. What it was
/// told of later turns is under way to it.
pub fn opens_when_all_came<T: Task>()
    ensures { (setup : Setup) (first : ℕ → T.State) (acts : List Act) (trace : List Group) →
        AllAskFirst setup first T.kind.semantics →
        (fits : FitsUnits setup first T.kind.semantics acts trace) → AreWithin setup acts →
        OpenWhenAllCame setup (history trace)
        (run_of setup first T.kind.semantics fits.done).net }
{}

/// A processor has crossed a barrier no more often than its manager has opened it; where the manager has
/// opened it once more, that opening is in the processor's mailbox, or under way to it.
pub fn openings_are_in_place<T: Task>()
    ensures { (setup : Setup) (first : ℕ → T.State) (acts : List Act) (trace : List Group) →
        AllAskFirst setup first T.kind.semantics →
        (fits : FitsUnits setup first T.kind.semantics acts trace) → AreWithin setup acts →
        OpeningsAreInPlace setup (history trace)
        (run_of setup first T.kind.semantics fits.done).net }
{}

/// A take brings exactly the lines of its lock that were stored to in the holds that made the versions
/// between that of the own copy and its own, as the one memory had them right after these holds; and so
/// do the grant before it, the release that ends a hold, and what a home keeps of each version.
pub fn newer_lines<T: Task>()
    ensures { (setup : Setup) (first : ℕ → T.State) (acts : List Act) (trace : List Group) →
        AllAskFirst setup first T.kind.semantics →
        (fits : FitsUnits setup first T.kind.semantics acts trace) → AreWithin setup acts →
        HasNewerLines setup first T.kind.semantics
        (run_of setup first T.kind.semantics fits.done).net trace }
{}
