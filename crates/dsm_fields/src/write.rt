//! Writers of one field each.

ghost use Rattle.std.specs.Prelude.{◌≡◌, ◌++◌, ◌^◌, ◌∷◌, [], true, nat_lt, OnOk};
ghost use Rattle.byteorder.specs.Endian.{big_bytes};
ghost use Rattle.dsm_base.specs.BigEndian.{signed_bytes};
ghost use Rattle.dsm_fields.specs.Fields.{is_signed, mode_number, bool_number};

use dsm_base::{MemFault, Mode, put_i64, put_u16, put_u32};

/// Appends one byte.
pub fn put_byte(out: &mut Vec<u8>, value: u8) -> Result<(), MemFault>
    ensures { OnOk result (out.new.items ≡ out.old.items ++ value ∷ []) }
{
    out.push(value)?;
    Ok(())
}

/// Appends a number of two bytes, which hold it.
pub fn put_short(out: &mut Vec<u8>, value: u16) -> Result<(), MemFault>
    ensures written { OnOk result (out.new.items ≡ out.old.items ++ big_bytes 2 value) }
    ensures held { nat_lt value (256 ^ 2) ≡ true }
{
    put_u16(out, value)?;
    Ok(())
}

/// Appends a number of four bytes, which hold it.
pub fn put_number(out: &mut Vec<u8>, value: u32) -> Result<(), MemFault>
    ensures written { OnOk result (out.new.items ≡ out.old.items ++ big_bytes 4 value) }
    ensures held { nat_lt value (256 ^ 4) ≡ true }
{
    put_u32(out, value)?;
    Ok(())
}

/// Appends a signed number of eight bytes, which hold it.
pub fn put_signed(out: &mut Vec<u8>, value: i64) -> Result<(), MemFault>
    ensures written { OnOk result (out.new.items ≡ out.old.items ++ signed_bytes value) }
    ensures held { is_signed value ≡ true }
{
    put_i64(out, value)?;
    Ok(())
}

/// Appends a count; one that four bytes can't hold is answered as out of memory.
pub fn put_count(out: &mut Vec<u8>, count: usize) -> Result<(), MemFault>
    ensures { OnOk result ((out.new.items ≡ out.old.items ++ big_bytes 4 count)
        × (nat_lt count (256 ^ 4) ≡ true)) }
{
    if count > u32::MAX as usize {
        return Err(MemFault);
    }
    put_u32(out, count as u32)?;
    Ok(())
}

/// Appends a length; one that two bytes can't hold is answered as out of memory.
pub fn put_length(out: &mut Vec<u8>, length: usize) -> Result<(), MemFault>
    ensures { OnOk result ((out.new.items ≡ out.old.items ++ big_bytes 2 length)
        × (nat_lt length (256 ^ 2) ≡ true)) }
{
    if length > u16::MAX as usize {
        return Err(MemFault);
    }
    put_u16(out, length as u16)?;
    Ok(())
}

/// Appends the byte of a mode.
pub fn put_mode(out: &mut Vec<u8>, mode: Mode) -> Result<(), MemFault>
    ensures { OnOk result (out.new.items ≡ out.old.items ++ mode_number mode ∷ []) }
{
    let number = match mode {
        Mode::Shared => 0,
        Mode::Excl => 1,
    };
    put_byte(out, number)
}

/// Appends a byte that is 0 or 1.
pub fn put_flag(out: &mut Vec<u8>, flag: bool) -> Result<(), MemFault>
    ensures { OnOk result (out.new.items ≡ out.old.items ++ bool_number flag ∷ []) }
{
    put_byte(out, if flag { 1 } else { 0 })
}
