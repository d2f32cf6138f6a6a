//! Laws of compiled programs.

ghost use Rattle.std.specs.Prelude.{ℕ, IsTrue};
ghost use Rattle.dsm_check.specs.Programs.{Program};
ghost use Rattle.dsm_semantics.specs.Programs.{threads_of, first_states};
ghost use Rattle.dsm_code.specs.Machine.{code_semantics, first_state};
ghost use Rattle.dsm_code.specs.Valid.{is_valid};
ghost use Rattle.dsm_laws_code.specs.Programs.{code_of};
ghost use Rattle.dsm_laws_code.specs.Runs.{RunsAs};

/// A thread of a program's code wants what the program's tree says, with the same texts, values, faults
/// and lines, whatever answers it gets.
pub fn compiled_runs_as_tree()
    ensures { (program : Program) (procs me : ℕ) → IsTrue (is_valid (code_of program)) →
        RunsAs code_semantics (first_state (code_of program) procs me)
        (threads_of program) (first_states program procs me) }
{}
