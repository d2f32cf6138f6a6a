//! Laws of compiled programs.

ghost use Rattle.std.specs.Prelude.{IsTrue};
ghost use Rattle.dsm_check.specs.Programs.{Program};
ghost use Rattle.dsm_code.specs.Valid.{is_valid};
ghost use Rattle.dsm_laws_code.specs.Programs.{code_of};
ghost use Rattle.dsm_laws_language.specs.Closed.{is_closed};
ghost use Rattle.dsm_laws_compiled.specs.Short.{are_short};

/// The code of a closed program is valid, where each of its functions has fewer than 2^32 instructions.
pub fn code_is_valid()
    ensures { (program : Program) → IsTrue (is_closed program) →
        IsTrue (are_short (code_of program)) → IsTrue (is_valid (code_of program)) }
{}
