//! What a statement is, by its first token.

ghost use Rattle.std.specs.Prelude.{◌≡◌};
ghost use Rattle.dsm_syntax.specs.Reading.{look};
ghost use Rattle.dsm_syntax.specs.Kinds as of;

use crate::cursor::Cursor;
use crate::{Sign, Word};

/// What a statement is. The lines are those of words.
#[derive(Clone, Copy, Debug, PartialEq, Eq)]
pub enum StatementKind {
    Block,
    Empty,
    Variables,
    If,
    While,
    For,
    Break { line: u32 },
    Continue { line: u32 },
    Return { line: u32 },
    Acquire,
    AcquireShared,
    Release,
    Barrier,
    Print,
    /// An expression, or no statement at all.
    Expression,
}

fn of_word(word: Word) -> StatementKind
    ensures { result ≡ of.kind_of_word word }
{
    match word {
        Word::Int => StatementKind::Variables,
        Word::If => StatementKind::If,
        Word::While => StatementKind::While,
        Word::For => StatementKind::For,
        Word::Acquire => StatementKind::Acquire,
        Word::AcquireShared => StatementKind::AcquireShared,
        Word::Release => StatementKind::Release,
        Word::Barrier => StatementKind::Barrier,
        Word::Print => StatementKind::Print,
        _ => StatementKind::Expression,
    }
}

fn of_placed_word(word: Word, line: u32) -> StatementKind
    ensures { result ≡ of.kind_of_placed_word word line }
{
    match word {
        Word::Break => StatementKind::Break { line },
        Word::Continue => StatementKind::Continue { line },
        Word::Return => StatementKind::Return { line },
        _ => StatementKind::Expression,
    }
}

impl StatementKind {
    /// What the next statement is.
    pub fn next(cursor: &Cursor<'_>) -> StatementKind
        ensures { result ≡ of.kind (look cursor.now) }
    {
        if let Some(word) = cursor.plain_word() {
            return of_word(word);
        }
        if let Some((word, line)) = cursor.placed_word() {
            return of_placed_word(word, line);
        }
        if cursor.is_sign(Sign::BraceOpen) {
            return StatementKind::Block;
        }
        if cursor.is_sign(Sign::Semicolon) {
            return StatementKind::Empty;
        }
        StatementKind::Expression
    }
}
