//! Laws of saved threads. They have no code.

ghost use Rattle.std.specs.Prelude.{◌≡◌, ◌≤◌, length, IsTrue, true};
ghost use Rattle.dsm_fields.specs.Fields.{are_kept};
ghost use Rattle.dsm_code.specs.Programs.{Program};
ghost use Rattle.dsm_code.specs.Machine.{State};
ghost use Rattle.dsm_code.specs.Valid.{is_valid};
ghost use Rattle.dsm_saved.specs.declared.saved.Saved.{Saved};
ghost use Rattle.dsm_saved.specs.Spelling.{saved_fields, IsShaped};
ghost use Rattle.dsm_saved.specs.Answers.{IsSaved, saved_bytes};
ghost use Rattle.dsm_saved.specs.States.{IsState, saved_of, state_of};

/// Two saved threads of one code with the same bytes are the same.
pub fn one_saved()
    ensures { (program : Program) (a b : Saved) → IsSaved program a → IsSaved program b →
        saved_bytes program a ≡ saved_bytes program b → a ≡ b }
{}

/// A state of the code, right before a labelled step or over, is saved as a thread of the code, and goes
/// on from what was saved.
pub fn states_are_saved()
    ensures kept { (program : Program) (s : State) → IsState program s →
        are_kept (saved_fields program (saved_of s)) ≡ true }
    ensures shaped { (s : State) → IsShaped (saved_of s) }
    ensures again { (program : Program) (s : State) → IsState program s →
        state_of program (saved_of s) ≡ s }
{}

/// What was saved of the code, with at most 256 functions under way, is a state of the code, right
/// before a labelled step or over; and that is saved as it was.
pub fn saved_are_states()
    ensures state { (program : Program) (saved : Saved) → IsTrue (is_valid program) →
        IsSaved program saved → length saved.frames ≤ 256 →
        IsState program (state_of program saved) }
    ensures again { (program : Program) (saved : Saved) → IsSaved program saved →
        saved_of (state_of program saved) ≡ saved }
{}
