//! Which bytes are what.

ghost use Rattle.std.specs.Prelude.{◌≡◌};
ghost use Rattle.dsm_syntax.specs.Bytes as of;

/// A letter or `_`.
pub fn is_letter(b: u8) -> bool
    ensures { result ≡ of.is_letter b }
{
    b.is_ascii_alphabetic() || b == b'_'
}

/// What a name goes on with.
pub fn is_name_byte(b: u8) -> bool
    ensures { result ≡ of.is_name_byte b }
{
    is_letter(b) || b.is_ascii_digit()
}

/// A space, a tab, a carriage return or a newline.
pub fn is_blank(b: u8) -> bool
    ensures { result ≡ of.is_blank b }
{
    b == b' ' || b == b'\t' || b == b'\r' || b == b'\n'
}

/// What a string may hold.
pub fn is_string_byte(b: u8) -> bool
    ensures { result ≡ of.is_string_byte b }
{
    b' ' <= b && b <= b'~' && b != b'"' && b != b'\\'
}

/// What a comment in one line may hold.
pub fn is_line_byte(b: u8) -> bool
    ensures { result ≡ of.is_line_byte b }
{
    b.is_ascii() && b != b'\n'
}
