//! Laws of threads of code. They have no code.

ghost use Rattle.std.specs.Prelude.{◌≡◌, ◌≤◌, ℕ, ℤ, length, IsTrue, IsSome, Some};
ghost use Rattle.dsm_base.specs.declared.label.Label.{Label};
ghost use Rattle.dsm_base.specs.declared.label.Want.{Want};
ghost use Rattle.dsm_base.specs.declared.setup.Setup.{Setup};
ghost use Rattle.dsm_base.specs.Steps.{want_of};
ghost use Rattle.dsm_base.specs.Threads.{AsksFirst, StaysWithin};
ghost use Rattle.dsm_code.specs.Programs.{Program};
ghost use Rattle.dsm_code.specs.Machine.{State, code_semantics, ready, completed, first_state, started, step};
ghost use Rattle.dsm_code.specs.Valid.{is_valid};
ghost use Rattle.dsm_code.specs.Typed.{IsGoing, IsTyped, FindsAll};

/// Threads of code take a lock right after they have asked for it, cross a barrier right after they have
/// come to it, and do so at no other time.
pub fn code_asks_first()
    ensures { (program : Program) (procs me : ℕ) → IsTrue (is_valid program) →
        AsksFirst code_semantics (first_state program procs me) }
{}

/// Threads of code want only cells, locks and barriers of their program, from whatever place of the code
/// they go on.
pub fn code_stays_within()
    ensures { (setup : Setup) (s : State) → IsTyped s → s.program.cells ≤ setup.cells →
        s.program.locks ≤ setup.locks → s.program.bars ≤ setup.bars →
        StaysWithin setup code_semantics s }
{}

/// A thread of code finds an instruction, its operands and what it names at each place that it comes to.
/// It is over only where it has ended or stopped.
pub fn code_finds_all()
    ensures started { (program : Program) (procs me : ℕ) → IsTrue (is_valid program) →
        IsTyped (started program procs me) }
    ensures label { (s : State) (label : Label) → IsTyped s → IsTyped (completed s label) }
    ensures ready { (s : State) → IsTyped s → IsTyped (ready s) }
    ensures finds { (s : State) → IsGoing s → FindsAll s }
    ensures over { (s : State) → IsTyped s → want_of (step (ready s)) ≡ Want.Over →
        IsSome (ready s).life }
{}
