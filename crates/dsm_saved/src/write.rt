//! Bytes of saved threads.

ghost use Rattle.std.specs.Prelude.{◌≡◌, ◌==◌, ◌++◌, ℕ, ℤ, Bool, length, Option, Some, None, OnOk};
ghost use Rattle.dsm_code.specs.Programs.{Program};
ghost use Rattle.dsm_code.specs.declared.parts.Row.{Row};
ghost use Rattle.dsm_fields.specs.Fields.{Appends, numbered};
ghost use Rattle.dsm_saved.specs.Spelling as s;

use dsm_base::MemFault;
use dsm_fields::{put_byte, put_count, put_length, put_number, put_short, put_signed};

/// Appends how a thread came to be over, if it is.
pub fn put_life(out: &mut Vec<u8>, way: u8, fault: u8, line: u32) -> Result<(), MemFault>
    ensures { OnOk result (Appends (s.life_fields way fault line) out.old.items out.new.items) }
{
    put_byte(out, way)?;
    put_byte(out, fault)?;
    put_number(out, line)
}

/// Appends a value.
fn put_value(out: &mut Vec<u8>, value: i64) -> Result<(), MemFault>
    ensures { OnOk result ((row : Option Row) (count at : ℕ) (last : Option ℤ) →
        Appends (s.value_fields row count at last value) out.old.items out.new.items) }
{
    put_signed(out, value)
}

/// Appends values.
fn put_values(out: &mut Vec<u8>, values: &[i64]) -> Result<(), MemFault>
    ensures { OnOk result ((row : Option Row) (count at : ℕ) (last : Option ℤ) →
        Appends (numbered (s.value_fields row count) at last values.now) out.old.items out.new.items) }
{
    for value in values {
        put_value(out, *value)?;
    }
    Ok(())
}

/// Appends the private cells. A count that four bytes can't hold is answered as out of memory.
pub fn put_own(out: &mut Vec<u8>, own: &[i64]) -> Result<(), MemFault>
    ensures { OnOk result ((program : Program) →
        Appends (s.own_fields program own.now) out.old.items out.new.items) }
{
    put_count(out, own.len())?;
    put_values(out, own)
}

/// Appends a function that is under way, by its slots and operands, the last one on top. A place that
/// four bytes can't hold, and a count that two can't, are answered as out of memory.
pub fn put_frame(
    out: &mut Vec<u8>,
    function: u16,
    place: usize,
    slots: &[i64],
    operands: &[i64],
) -> Result<(), MemFault>
    ensures { OnOk result ((program : Program) (is_last : Bool) (next : Option ℕ) →
        Appends (s.known_fields program is_last next (record {
          function = function;
          place = place;
          values = slots.now ++ operands.now;
        })) out.old.items out.new.items) }
{
    put_short(out, function)?;
    put_count(out, place)?;
    put_length(out, slots.len().saturating_add(operands.len()))?;
    put_values(out, slots)?;
    put_values(out, operands)
}
