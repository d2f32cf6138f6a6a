//! A law of the texts of programs.

ghost use Rattle.std.specs.Prelude.{◌≡◌, ◌⊎◌, ℕ, List};
ghost use Rattle.dsm_syntax.specs.declared.errors.ProgErr.{ProgErr};
ghost use Rattle.dsm_check.specs.Programs.{Program};
ghost use Rattle.dsm_top.specs.Accepted.{IsChecked};
ghost use Rattle.dsm_top.specs.Refusals.{IsUnchecked};

use dsm_laws_grammar::program_or_refusal;

/// Each text is one program that the rules accept, or is refused for one reason, never both.
pub fn accepted_or_refused()
    ensures each_text { (text : List ℕ) →
        ((program : Program) × IsChecked text program)
        ⊎ ((e : ProgErr) × IsUnchecked text e) }
    ensures not_both { (text : List ℕ) (program : Program) (e : ProgErr) →
        IsChecked text program → IsUnchecked text e → ⊥ }
    ensures one_program { (text : List ℕ) (program other : Program) →
        IsChecked text program → IsChecked text other → program ≡ other }
    ensures one_refusal { (text : List ℕ) (e f : ProgErr) →
        IsUnchecked text e → IsUnchecked text f → e ≡ f }
{
    program_or_refusal();
}
