//! The tokens of a text.

ghost use Rattle.std.specs.Prelude.{◌≡◌, ◌≤◌, ◌⊎◌, List, ◌++◌, length, Ok, Err, IfOk, IfErr, OnOk, MatchResult};
ghost use Rattle.dsm_syntax.specs.declared.token.Token.{Token};
ghost use Rattle.dsm_syntax.specs.declared.errors.ProgErr.{ProgErr};
ghost use Rattle.dsm_syntax.specs.Texts.{IsLexed, IsRefused, IsAnswer};
ghost use Rattle.dsm_syntax.specs.Places.{AreInPlace};
ghost use Rattle.dsm_syntax.specs.Fronts.{kind_of, held_in, listed, IsUnlisted};

use crate::errors::{ProgErr, Which};
use crate::front::{Front, Shape, front_of, newlines};
use crate::token::{Token, TokenKind, Tokens};
use dsm_base::Text;
use sqlite_items::Items;
use std::alloc::Global;

/// The most bytes of a program.
pub const MOST_TEXT: usize = 262_144;

/// The most tokens of a program.
const MOST_TOKENS: usize = 65_536;

/// What stands between the quotes of a string.
fn unquoted(bytes: &[u8]) -> &[u8]
    ensures { result.now ≡ held_in bytes.now }
{
    bytes
        .get(1..bytes.len().saturating_sub(1))
        .unwrap_or_default()
}

/// The token of a shape that has this text; none of blank space and comments.
fn kind_of(alloc: Global, shape: Shape, bytes: &[u8]) -> Result<Option<TokenKind>, ProgErr>
    ensures kind { IfOk result (λ kind. kind ≡ kind_of shape bytes.now) }
    ensures memory { IfErr result (λ e. e ≡ ProgErr.Memory) }
{
    let kind = match shape {
        Shape::Blank | Shape::LineComment | Shape::BlockComment => return Ok(None),
        Shape::Name => TokenKind::Name(Text::from_slice(alloc, bytes)?),
        Shape::Word(word) => TokenKind::Word(word),
        Shape::Number(value) => TokenKind::Number(value),
        Shape::Str => TokenKind::Str(Text::from_slice(alloc, unquoted(bytes))?),
        Shape::Sign(sign) => TokenKind::Sign(sign),
    };
    Ok(Some(kind))
}

/// Adds a token, where there are not too many.
fn add(
    tokens: &mut Items<Token>,
    kind: Option<TokenKind>,
    at: u32,
    len: u32,
    line: u32,
) -> Result<(), ProgErr>
    ensures ok { OnOk result (tokens.new ≡ tokens.old ++ listed kind at len line) }
    ensures few { OnOk result (length tokens.old ≤ 65536 → length tokens.new ≤ 65536) }
    ensures err { IfErr result (λ e. (e ≡ ProgErr.Memory) ⊎ IsUnlisted tokens.old kind e) }
{
    let Some(kind) = kind else {
        return Ok(());
    };
    if MOST_TOKENS <= tokens.len() {
        return Err(ProgErr::Limit {
            which: Which::Tokens,
            count: MOST_TOKENS as u32 + 1,
        });
    }
    tokens.push(Token {
        kind,
        at,
        len,
        line,
    })?;
    Ok(())
}

/// The tokens of a text that isn't too long.
fn read(alloc: Global, text: &[u8]) -> Result<Items<Token>, ProgErr>
    requires { length text.now ≤ 262144 }
    ensures { MatchResult result
        (λ tokens. IsLexed text.now tokens)
        (λ e. (e ≡ ProgErr.Memory) ⊎ IsRefused text.now e) }
{
    let mut tokens = Items::new(alloc);
    let mut at = 0;
    let mut line = 1;
    while at < text.len() {
        let front = front_of(&text[at..], line)?;
        let bytes = &text[at..at + front.len];
        let kind = kind_of(alloc, front.shape, bytes)?;
        add(&mut tokens, kind, at as u32, front.len as u32, line)?;
        line += newlines(bytes) as u32;
        at += front.len;
    }
    Ok(tokens)
}

/// The same as the type keeps them.
fn list(alloc: Global, text: &[u8]) -> Result<Tokens, ProgErr>
    requires { length text.now ≤ 262144 }
    ensures { MatchResult result
        (λ tokens. IsLexed text.now tokens)
        (λ e. (e ≡ ProgErr.Memory) ⊎ IsRefused text.now e) }
{
    match read(alloc, text) {
        Ok(tokens) => Ok(Tokens::new(tokens)),
        Err(e) => Err(e),
    }
}

/// The tokens of a program's text, in order. Blank space and comments stand between them.
///
/// - `Limit` of `Text` comes before all else, for more than 262,144 bytes, with their number.
/// - `BadByte` comes for a byte that no token and no comment can have there, with its line, or with
///   the line in which a string, a number or a comment begins that isn't right.
/// - `LiteralTooLarge` comes for a number over 9223372036854775807, with its line.
/// - `Limit` of `Name` comes for a name of more than 64 bytes, with its whole length.
/// - `Limit` of `Tokens` comes for the 65,537th token, with 65,537.
/// - `Memory` comes where memory runs out.
///
/// Of several faults the first from the left is answered.
pub fn lex(alloc: Global, text: &[u8]) -> Result<Tokens, ProgErr>
    // What is answered is so.
    ensures tokens { IfOk result (λ tokens. IsLexed text.now tokens) }
    ensures places { IfOk result (λ tokens. AreInPlace text.now 0 tokens) }
    ensures refused { IfErr result (λ e. (e ≡ ProgErr.Memory) ⊎ IsRefused text.now e) }

    // And what is so is answered, unless memory runs out.
    ensures each_text { (tokens : List Token) → IsLexed text.now tokens →
        IsAnswer result (Ok tokens) }
    ensures each_fault { (e : ProgErr) → IsRefused text.now e → IsAnswer result (Err e) }
{
    if MOST_TEXT < text.len() {
        return Err(ProgErr::Limit {
            which: Which::Text,
            count: text.len().min(u32::MAX as usize) as u32,
        });
    }
    list(alloc, text)
}
