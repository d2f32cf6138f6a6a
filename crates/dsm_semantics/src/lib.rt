//! What threads of programs do, over programs with every name resolved, and laws of it. It has no code.
#![tactic(auto)]

ghost use Rattle.std.specs.Prelude.{◌≡◌, ℕ, List};
ghost use Rattle.dsm_base.specs.declared.label.Want.{Want};
ghost use Rattle.dsm_base.specs.declared.setup.Setup.{Setup};
ghost use Rattle.dsm_base.specs.Endings.{endings_of};
ghost use Rattle.dsm_base.specs.Plain.{Turn, after_run};
ghost use Rattle.dsm_base.specs.Threads.{AsksFirst, StaysWithin};
ghost use Rattle.dsm_check.specs.declared.checked.Checked.{Checked};
ghost use Rattle.dsm_check.specs.Resolved as r;
ghost use Rattle.dsm_check.specs.CheckedViews.{program_of};
ghost use Rattle.dsm_check.specs.Programs.{Program};
ghost use Rattle.dsm_check.specs.Setups.{IsSetupOf};
ghost use Rattle.dsm_semantics.specs.States.{State, ending_of};
ghost use Rattle.dsm_semantics.specs.Semantics.{program_semantics, ready, first_state};
ghost use Rattle.dsm_semantics.specs.Next.{IsNext};
ghost use Rattle.dsm_semantics.specs.Programs.{threads_of, first_states};

/// From every state of a thread steps without a label lead to a labelled step, or to a thread that is
/// over, and there is only one such step.
pub fn next_step()
    ensures there_is_one { (functions : List r.Function) (s : State) →
        let next = ready functions s in
        IsNext functions s next ((program_semantics functions).want next) }
    ensures only_one { (functions : List r.Function) (s t u : State) (one other : Want) →
        IsNext functions s t one → IsNext functions s u other → (t ≡ u) × (one ≡ other) }
{}

/// Threads of programs take a lock right after they have asked for it, cross a barrier right after they
/// have come to it, and do so at no other time.
pub fn program_asks_first()
    ensures { (functions : List r.Function) (main private_cells procs me : ℕ) →
        AsksFirst (program_semantics functions)
        (first_state functions main private_cells procs me) }
{}

/// Threads of an accepted program want only cells, locks and barriers of the program's setup.
pub fn program_stays_within()
    ensures { (checked : Checked) (procs me : ℕ) (setup : Setup) →
        let program = program_of checked in
        IsSetupOf program procs setup →
        StaysWithin setup (threads_of program) (first_states program procs me) }
{}

/// How the threads of a program came to be over is told by the labels of a run.
pub fn endings_by_labels()
    ensures { (program : Program) (procs : ℕ) (run : List Turn) (p : ℕ) →
        let s = after_run (first_states program procs) (threads_of program) run in
        ending_of (s.threads p) ≡ endings_of run p }
{}
