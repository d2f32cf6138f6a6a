//! Laws of the runs of compiled programs.

ghost use Rattle.std.specs.Prelude.{◌≡◌, ℕ, ℤ, List, IsTrue};
ghost use Rattle.dsm_base.specs.declared.act.Act.{Act};
ghost use Rattle.dsm_base.specs.declared.label.Label.{Label};
ghost use Rattle.dsm_base.specs.declared.setup.Setup.{Setup};
ghost use Rattle.dsm_base.specs.Agrees.{AgreesWith};
ghost use Rattle.dsm_base.specs.Plain.{Turn, IsPlainRun};
ghost use Rattle.dsm_check.specs.Programs.{Program};
ghost use Rattle.dsm_semantics.specs.Programs.{threads_of, first_states};
ghost use Rattle.dsm_code.specs.Machine.{code_semantics, first_state};
ghost use Rattle.dsm_code.specs.Valid.{is_valid};
ghost use Rattle.dsm_net.specs.declared.trace.Group.{Group};
ghost use Rattle.dsm_net.specs.Fits.{Done, FitsUnits, run_of};
ghost use Rattle.dsm_laws_code.specs.Programs.{code_of};
ghost use Rattle.dsm_laws_same.specs.Images.{without_threads};

/// Threads of a program's code have the runs of the threads of its tree: the same over one memory
/// (`runs`, `tree_runs`), where a processor agrees with a run of the one as with that of the other
/// (`agrees`). Without a common memory the same units make the same of either, but for the states of
/// the threads themselves (`units`), so the same traces fit them (`fits`).
pub fn compiled_has_runs_of_tree()
    ensures runs { (program : Program) (procs : ℕ) (setup : Setup) (run : List Turn) →
        IsTrue (is_valid (code_of program)) →
        IsPlainRun setup (first_state (code_of program) procs) code_semantics run →
        IsPlainRun setup (first_states program procs) (threads_of program) run }
    ensures tree_runs { (program : Program) (procs : ℕ) (setup : Setup) (run : List Turn) →
        IsTrue (is_valid (code_of program)) →
        IsPlainRun setup (first_states program procs) (threads_of program) run →
        IsPlainRun setup (first_state (code_of program) procs) code_semantics run }
    ensures agrees { (program : Program) (procs : ℕ) (setup : Setup) (run : List Turn) (p : ℕ)
        (labels : List Label) (copy : ℕ → ℤ) →
        AgreesWith setup (first_state (code_of program) procs) code_semantics run p labels copy →
        AgreesWith setup (first_states program procs) (threads_of program) run p labels copy }
    ensures units { (program : Program) (procs : ℕ) (setup : Setup) (done : List Done) →
        IsTrue (is_valid (code_of program)) →
        without_threads (run_of setup (first_state (code_of program) procs) code_semantics done)
        ≡ without_threads (run_of setup (first_states program procs) (threads_of program) done) }
    ensures fits { (program : Program) (procs : ℕ) (setup : Setup) (acts : List Act)
        (trace : List Group) → IsTrue (is_valid (code_of program)) →
        FitsUnits setup (first_state (code_of program) procs) code_semantics acts trace →
        FitsUnits setup (first_states program procs) (threads_of program) acts trace }
{}
