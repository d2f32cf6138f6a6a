//! Laws of accepted programs: all that they name is there, and no default of the semantics is ever used.
#![tactic(auto)]

ghost use Rattle.std.specs.Prelude.{◌≡◌, ℕ, IsTrue, IsSome, List};
ghost use Rattle.dsm_base.specs.Steps.{goes, want_of};
ghost use Rattle.dsm_base.specs.Threads.{AnswersTo, state_after};
ghost use Rattle.dsm_base.specs.declared.label.Label.{Label};
ghost use Rattle.dsm_base.specs.declared.label.Want.{Want};
ghost use Rattle.dsm_check.specs.declared.checked.Checked.{Checked};
ghost use Rattle.dsm_check.specs.CheckedViews.{program_of};
ghost use Rattle.dsm_check.specs.Programs.{Program};
ghost use Rattle.dsm_check.specs.Resolved as r;
ghost use Rattle.dsm_semantics.specs.Programs.{threads_of, first_states};
ghost use Rattle.dsm_semantics.specs.Semantics.{step, ready, completed};
ghost use Rattle.dsm_semantics.specs.States.{State};
ghost use Rattle.dsm_laws_language.specs.Closed.{is_closed};
ghost use Rattle.dsm_laws_language.specs.States.{IsClosedState, finds_all, IsReached, started_in, AllAnswer, is_print_next};

/// An accepted program is closed: its slots, cells, locks and barriers are there, its calls give as many
/// arguments as there are parameters, and `break` and `continue` stand in loops.
pub fn accepted_is_closed()
    ensures { (checked : Checked) → IsTrue (is_closed (program_of checked)) }
{}

/// A thread of an accepted program finds its operands and all that it names at each step, so no default
/// of the semantics is ever used. It wants nothing more only where it is over, and a line only where a
/// print comes next.
pub fn program_finds_all()
    ensures started { (program : Program) (procs me : ℕ) → IsTrue (is_closed program) →
        IsClosedState program (started_in program procs me) }
    ensures step { (program : Program) (s t : State) → IsTrue (is_closed program) →
        IsClosedState program s → step program.functions s ≡ goes t → IsClosedState program t }
    ensures label { (program : Program) (s : State) (label : Label) → IsTrue (is_closed program) →
        IsClosedState program s → AnswersTo (want_of (step program.functions s)) label →
        IsClosedState program (completed program.functions s label) }
    ensures finds { (program : Program) (s : State) → IsTrue (is_closed program) →
        IsClosedState program s → IsTrue (finds_all program s) }
    ensures reached { (checked : Checked) (procs me : ℕ) (s : State) →
        let program = program_of checked in
        IsReached program (started_in program procs me) s → IsTrue (finds_all program s) }
    ensures after_labels { (program : Program) (procs me : ℕ) (labels : List Label) →
        AllAnswer program procs me labels →
        IsReached program (started_in program procs me)
        (state_after (threads_of program) (first_states program procs me) labels) }
    ensures over { (functions : List r.Function) (s : State) →
        want_of (step functions (ready functions s)) ≡ Want.Over → IsSome (ready functions s).life }
    ensures line { (functions : List r.Function) (s : State) →
        want_of (step functions s) ≡ Want.Line → IsTrue (is_print_next s.todo) }
{}
