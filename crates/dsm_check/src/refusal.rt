//! Refusals that name a name.

ghost use Rattle.std.specs.Prelude.{◌≡◌, ◌⊎◌, min};
ghost use Rattle.dsm_syntax.specs.declared.errors.ProgErr.TheVariants.{WrongKind, Unknown, Twice, ArgCount, Memory};

use dsm_base::Text;
use dsm_syntax::{Name, ProgErr};
use std::alloc::Global;

/// The refusal of a name that is used as what it isn't, at a line.
pub fn wrong_kind_at(alloc: Global, name: &Text, line: u32) -> ProgErr
    ensures { (result ≡ Memory) ⊎ (result ≡ WrongKind name.now line) }
{
    match Text::from_slice(alloc, name.as_slice()) {
        Ok(name) => ProgErr::WrongKind { name, line },
        Err(_) => ProgErr::Memory,
    }
}

/// The refusal of a name that is used as what it isn't.
pub fn wrong_kind(alloc: Global, name: &Name) -> ProgErr
    ensures { (result ≡ Memory) ⊎ (result ≡ WrongKind name.now.text name.now.line) }
{
    wrong_kind_at(alloc, &name.text, name.line)
}

/// The refusal of a name that isn't declared.
pub fn unknown(alloc: Global, name: &Name) -> ProgErr
    ensures { (result ≡ Memory) ⊎ (result ≡ Unknown name.now.text name.now.line) }
{
    match Text::from_slice(alloc, name.text.as_slice()) {
        Ok(text) => ProgErr::Unknown {
            name: text,
            line: name.line,
        },
        Err(_) => ProgErr::Memory,
    }
}

/// The refusal of a name that is declared already.
pub fn twice(alloc: Global, name: &Name) -> ProgErr
    ensures { (result ≡ Memory) ⊎ (result ≡ Twice name.now.text name.now.line) }
{
    match Text::from_slice(alloc, name.text.as_slice()) {
        Ok(text) => ProgErr::Twice {
            name: text,
            line: name.line,
        },
        Err(_) => ProgErr::Memory,
    }
}

/// The refusal of a call with another number of arguments than parameters.
pub fn arg_count(alloc: Global, name: &Name, given: usize, wanted: u8) -> ProgErr
    ensures { (result ≡ Memory) ⊎
        (result ≡ ArgCount name.now.text name.now.line (min given 4294967295) wanted) }
{
    match Text::from_slice(alloc, name.text.as_slice()) {
        Ok(text) => ProgErr::ArgCount {
            name: text,
            line: name.line,
            given: given.min(u32::MAX as usize) as u32,
            wanted: u32::from(wanted),
        },
        Err(_) => ProgErr::Memory,
    }
}
