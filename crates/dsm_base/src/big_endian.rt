//! Numbers in bytes, the highest byte first.

ghost use Rattle.std.specs.Prelude.{◌≡◌, ◌<◌, ◌++◌, length, OnOk, MatchOption};
ghost use Rattle.byteorder.specs.Endian.{big_bytes};
ghost use Rattle.dsm_base.specs.BigEndian.{signed_bytes, ReadsBack};

use byteorder::{BigEndian, ByteOrder};
use std::alloc::AllocError;

/// Appends a number of two bytes.
pub fn put_u16(out: &mut Vec<u8>, number: u16) -> Result<(), AllocError>
    ensures { OnOk result (out.new.items ≡ out.old.items ++ big_bytes 2 number) }
{
    let mut bytes = [0; 2];
    BigEndian::write_u16(&mut bytes, number);
    out.extend_from_slice(&bytes)
}

/// Appends a number of four bytes.
pub fn put_u32(out: &mut Vec<u8>, number: u32) -> Result<(), AllocError>
    ensures { OnOk result (out.new.items ≡ out.old.items ++ big_bytes 4 number) }
{
    let mut bytes = [0; 4];
    BigEndian::write_u32(&mut bytes, number);
    out.extend_from_slice(&bytes)
}

/// Appends a signed number of eight bytes, in two's complement.
pub fn put_i64(out: &mut Vec<u8>, number: i64) -> Result<(), AllocError>
    ensures { OnOk result (out.new.items ≡ out.old.items ++ signed_bytes number) }
{
    let mut bytes = [0; 8];
    BigEndian::write_i64(&mut bytes, number);
    out.extend_from_slice(&bytes)
}

/// The number in the first two bytes, which are that number's, and the bytes after them. `None` where
/// there are fewer.
pub fn u16_at(bytes: &[u8]) -> Option<(u16, &[u8])>
    ensures { MatchOption result (length bytes.now < 2)
        (λ found. bytes.now ≡ big_bytes 2 found.0 ++ found.1.now) }
{
    if bytes.len() < 2 {
        return None;
    }
    let (front, rest) = bytes.split_at(2);
    Some((BigEndian::read_u16(front), rest))
}

/// The number in the first four bytes, which are that number's, and the bytes after them. `None` where
/// there are fewer.
pub fn u32_at(bytes: &[u8]) -> Option<(u32, &[u8])>
    ensures { MatchOption result (length bytes.now < 4)
        (λ found. bytes.now ≡ big_bytes 4 found.0 ++ found.1.now) }
{
    if bytes.len() < 4 {
        return None;
    }
    let (front, rest) = bytes.split_at(4);
    Some((BigEndian::read_u32(front), rest))
}

/// The signed number in the first eight bytes, which are that number's, and the bytes after them.
/// `None` where there are fewer.
pub fn i64_at(bytes: &[u8]) -> Option<(i64, &[u8])>
    ensures { MatchOption result (length bytes.now < 8)
        (λ found. bytes.now ≡ signed_bytes found.0 ++ found.1.now) }
{
    if bytes.len() < 8 {
        return None;
    }
    let (front, rest) = bytes.split_at(8);
    Some((BigEndian::read_i64(front), rest))
}

/// The bytes of a number that was read are those it was read from, however many they are.
pub fn bytes_of_read_number()
    ensures { ReadsBack }
{}
