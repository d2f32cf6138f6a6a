//! What stands at the front of a text.

ghost use Rattle.std.specs.Prelude.{◌≡◌, ◌+◌, ◌-◌, ◌^◌, ◌<◌, ◌≤◌, false, IfOk, length, min, slice_index};
ghost use Rattle.std.specs.Char.{is_ascii_digit};
ghost use Rattle.std.specs.List.{prefix_len};
ghost use Rattle.dsm_syntax.specs.Bytes.{is_name_byte, is_string_byte, is_line_byte, lines_in};
ghost use Rattle.dsm_syntax.specs.Pieces.{decimal};
ghost use Rattle.dsm_syntax.specs.Fronts as of;

use crate::bytes::{is_blank, is_letter, is_line_byte, is_name_byte, is_string_byte};
use crate::errors::{ProgErr, Which};
use crate::sign::{Sign, sign_at};
use crate::word::{Word, word_of};

/// The most bytes of a name.
const MOST_NAME: usize = 64;

/// The greatest number.
const MOST_NUMBER: u64 = 9223372036854775807;

/// What a piece of the text is, with no copy of its bytes.
#[derive(Clone, Copy, Debug)]
pub enum Shape {
    Blank,
    LineComment,
    BlockComment,
    Name,
    Word(Word),
    Number(i64),
    Str,
    Sign(Sign),
}

/// The piece at the front of a text, and its length.
#[derive(Clone, Copy, Debug)]
pub struct Front {
    pub shape: Shape,
    pub len: usize,
}

/// What the first bytes of a text begin.
#[derive(Clone, Copy, Debug)]
enum Lead {
    Blank,
    Name,
    Number,
    Str,
    LineComment,
    BlockComment,
    Sign,
}

/// How a comment goes on that has begun.
#[derive(Clone, Copy, Debug)]
enum Closing {
    /// It ends with these bytes.
    Ends(usize),
    /// A byte over 0x7F comes first, after so many others.
    Byte(usize),
    /// The text ends first.
    Open,
}

/// A byte of the text, and 0 behind its end.
fn byte(text: &[u8], at: usize) -> u8
    ensures { result ≡ slice_index text.now at }
{
    if at < text.len() { text[at] } else { 0 }
}

fn lead_of(text: &[u8]) -> Lead
    ensures { result ≡ of.lead_of text.now }
{
    let first = byte(text, 0);
    let second = byte(text, 1);
    if is_blank(first) {
        Lead::Blank
    } else if is_letter(first) {
        Lead::Name
    } else if first.is_ascii_digit() {
        Lead::Number
    } else if first == b'"' {
        Lead::Str
    } else if first == b'/' && second == b'/' {
        Lead::LineComment
    } else if first == b'/' && second == b'*' {
        Lead::BlockComment
    } else {
        Lead::Sign
    }
}

/// How many lines end within.
pub fn newlines(text: &[u8]) -> usize
    ensures { result ≡ lines_in text.now }
{
    text.iter().filter(|b| **b == b'\n').count()
}

/// How many bytes that a name may hold come first.
fn name_len(text: &[u8]) -> usize
    ensures { result ≡ prefix_len is_name_byte text.now }
{
    text.iter().take_while(|b| is_name_byte(**b)).count()
}

/// How many digits come first.
fn digits_len(text: &[u8]) -> usize
    ensures { result ≡ prefix_len is_ascii_digit text.now }
{
    text.iter().take_while(|b| b.is_ascii_digit()).count()
}

/// How many bytes that a string may hold come first.
fn string_len(text: &[u8]) -> usize
    ensures { result ≡ prefix_len is_string_byte text.now }
{
    text.iter().take_while(|b| is_string_byte(**b)).count()
}

/// How many bytes that a comment in one line may hold come first.
fn line_len(text: &[u8]) -> usize
    ensures { result ≡ prefix_len is_line_byte text.now }
{
    text.iter().take_while(|b| is_line_byte(**b)).count()
}

fn name(text: &[u8]) -> Result<Front, ProgErr>
    requires { length text.now < 2 ^ 32 }
    ensures { result ≡ of.name text.now }
{
    let len = name_len(text);
    match word_of(&text[..len]) {
        Some(word) => Ok(Front {
            shape: Shape::Word(word),
            len,
        }),
        None if len <= MOST_NAME => Ok(Front {
            shape: Shape::Name,
            len,
        }),
        None => Err(ProgErr::Limit {
            which: Which::Name,
            count: len as u32,
        }),
    }
}

/// The value of decimal digits, or the greatest of 64 bits.
fn value(digits: &[u8]) -> u64
    ensures { result ≡ min (decimal digits.now) (2 ^ 64 - 1) }
{
    let mut value = 0u64;
    for digit in digits {
        value = value
            .saturating_mul(10)
            .saturating_add(u64::from(digit.saturating_sub(b'0')));
    }
    value
}

fn number(text: &[u8], line: u32) -> Result<Front, ProgErr>
    ensures { result ≡ of.number line text.now }
{
    let len = digits_len(text);
    let leads_with_zero = byte(text, 0) == b'0' && 1 < len;
    if leads_with_zero || is_name_byte(byte(text, len)) {
        return Err(ProgErr::BadByte { line });
    }
    let value = value(&text[..len]);
    if value <= MOST_NUMBER {
        Ok(Front {
            shape: Shape::Number(value as i64),
            len,
        })
    } else {
        Err(ProgErr::LiteralTooLarge { line })
    }
}

fn string(text: &[u8], line: u32) -> Result<Front, ProgErr>
    requires { 1 ≤ length text.now }
    ensures { result ≡ of.string line text.now }
{
    let held = string_len(&text[1..]);
    if byte(&text[1..], held) == b'"' {
        Ok(Front {
            shape: Shape::Str,
            len: held + 2,
        })
    } else {
        Err(ProgErr::BadByte { line })
    }
}

fn line_comment(text: &[u8], line: u32) -> Result<Front, ProgErr>
    ensures { result ≡ of.line_comment line text.now }
{
    let len = line_len(text);
    if byte(text, len).is_ascii() {
        Ok(Front {
            shape: Shape::LineComment,
            len,
        })
    } else {
        Err(ProgErr::BadByte { line })
    }
}

/// How the comment goes on whose first two bytes stand before this text.
fn closing_of(text: &[u8]) -> Closing
    ensures value { result ≡ of.closing_of false 0 text.now }
    ensures within { of.IsWithin result (length text.now) }
{
    let mut star = false;
    for (at, b) in text.iter().enumerate() {
        if !b.is_ascii() {
            return Closing::Byte(at);
        }
        if star && *b == b'/' {
            return Closing::Ends(at + 1);
        }
        star = *b == b'*';
    }
    Closing::Open
}

fn block_comment(text: &[u8], line: u32) -> Result<Front, ProgErr>
    requires some { 2 ≤ length text.now }
    requires fits { line + length text.now < 2 ^ 32 }
    ensures { result ≡ of.block_comment line text.now }
{
    let text = &text[2..];
    match closing_of(text) {
        Closing::Ends(len) => Ok(Front {
            shape: Shape::BlockComment,
            len: len + 2,
        }),
        Closing::Byte(at) => Err(ProgErr::BadByte {
            line: line + newlines(&text[..at]) as u32,
        }),
        Closing::Open => Err(ProgErr::BadByte { line }),
    }
}

fn sign(text: &[u8], line: u32) -> Result<Front, ProgErr>
    ensures { result ≡ of.sign line text.now }
{
    match sign_at(text) {
        Some((sign, len)) => Ok(Front {
            shape: Shape::Sign(sign),
            len,
        }),
        None => Err(ProgErr::BadByte { line }),
    }
}

fn piece(text: &[u8], line: u32) -> Result<Front, ProgErr>
    requires some { 1 ≤ length text.now }
    requires fits { line + length text.now < 2 ^ 32 }
    ensures { result ≡ of.front_of line text.now }
{
    match lead_of(text) {
        Lead::Blank => Ok(Front {
            shape: Shape::Blank,
            len: 1,
        }),
        Lead::Name => name(text),
        Lead::Number => number(text, line),
        Lead::Str => string(text, line),
        Lead::LineComment => line_comment(text, line),
        Lead::BlockComment => block_comment(text, line),
        Lead::Sign => sign(text, line),
    }
}

/// The piece at the front of a text that begins in this line.
pub fn front_of(text: &[u8], line: u32) -> Result<Front, ProgErr>
    requires some { 1 ≤ length text.now }
    requires fits { line + length text.now < 2 ^ 32 }
    ensures value { result ≡ of.front_of line text.now }
    ensures within { IfOk result (λ front. (1 ≤ front.len) × (front.len ≤ length text.now)) }
{
    piece(text, line)
}
