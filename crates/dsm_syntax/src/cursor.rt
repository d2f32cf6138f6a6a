//! The tokens that are left to read.

ghost use Rattle.std.specs.Prelude.{◌≡◌, length, nat_eq, true, false, OnOk, OnErr};
ghost use Rattle.dsm_syntax.specs.Lexemes.{lexemes, is_placed_sign, is_placed_word};
ghost use Rattle.dsm_syntax.specs.Reading.{look, tail, is_sign, is_word};
ghost use Rattle.dsm_syntax.specs.Tokens.{read_name, read_number, read_string, is_name, is_string, next_number, plain_word, placed_word, placed_sign};
ghost use Rattle.dsm_syntax.specs.Gives.{Gives};

use crate::refusal::Refusal;
use crate::{Name, Sign, Token, TokenKind, Word};
use dsm_base::Text;
use std::alloc::Global;
use std::marker::Model;

/// Whether a tree has the line of such a word.
fn is_placed_word(word: Word) -> bool
    ensures { result ≡ is_placed_word word }
{
    matches!(
        word,
        Word::Bind
            | Word::BindEach
            | Word::BindBarrier
            | Word::Break
            | Word::Continue
            | Word::Return
    )
}

/// Whether a tree has the line of such a sign: whether it is an operator.
fn is_placed_sign(sign: Sign) -> bool
    ensures { result ≡ is_placed_sign sign }
{
    !matches!(
        sign,
        Sign::ParenOpen
            | Sign::ParenClose
            | Sign::BraceOpen
            | Sign::BraceClose
            | Sign::BracketOpen
            | Sign::BracketClose
            | Sign::Semicolon
            | Sign::Comma
            | Sign::Colon
    )
}

/// The tokens that are left, which contracts see as a list.
#[derive(Drop)]
pub struct Cursor<'a> {
    left: &'a [Token],
}

impl<'a> Model for Cursor<'a> {
    ghost use Rattle.std.specs.Prelude.{List};
    ghost use Rattle.dsm_syntax.specs.Lexemes.{Lexeme, lexemes};

    ghost Value = { List Lexeme };

    ghost view = { λ cursor. lexemes cursor.left.now };
}

impl<'a> Cursor<'a> {
    /// A cursor before the first of these tokens.
    pub fn new(tokens: &'a [Token]) -> Cursor<'a>
        ensures { result ≡ lexemes tokens.now }
    {
        Cursor { left: tokens }
    }

    /// Whether no token is left.
    pub fn is_empty(&self) -> bool
        ensures { result ≡ nat_eq (length self.now) 0 }
    {
        self.left.is_empty()
    }

    /// How many tokens are left.
    pub fn len(&self) -> usize
        ensures { result ≡ length self.now }
    {
        self.left.len()
    }

    /// Passes over the next token.
    pub fn skip(&mut self)
        ensures { self.new ≡ tail self.old }
    {
        if let [_, left @ ..] = self.left {
            self.left = left;
        }
    }

    /// Whether this sign comes next, one whose line no tree has.
    pub fn is_sign(&self, sign: Sign) -> bool
        requires { is_placed_sign sign ≡ false }
        ensures { result ≡ is_sign sign self.now }
    {
        match self.left {
            [
                Token {
                    kind: TokenKind::Sign(found),
                    ..
                },
                ..
            ] => *found == sign,
            _ => false,
        }
    }

    /// Whether this word comes next, one whose line no tree has.
    pub fn is_word(&self, word: Word) -> bool
        requires { is_placed_word word ≡ false }
        ensures { result ≡ is_word word self.now }
    {
        match self.left {
            [
                Token {
                    kind: TokenKind::Word(found),
                    ..
                },
                ..
            ] => *found == word,
            _ => false,
        }
    }

    /// Whether a name comes next.
    pub fn is_name(&self) -> bool
        ensures { result ≡ is_name (look self.now) }
    {
        matches!(
            self.left,
            [
                Token {
                    kind: TokenKind::Name(_),
                    ..
                },
                ..
            ]
        )
    }

    /// Whether a string comes next.
    pub fn is_string(&self) -> bool
        ensures { result ≡ is_string (look self.now) }
    {
        matches!(
            self.left,
            [
                Token {
                    kind: TokenKind::Str(_),
                    ..
                },
                ..
            ]
        )
    }

    /// The word that comes next, where it is one whose line no tree has.
    pub fn plain_word(&self) -> Option<Word>
        ensures { result ≡ plain_word (look self.now) }
    {
        match self.left {
            [
                Token {
                    kind: TokenKind::Word(word),
                    ..
                },
                ..
            ] if !is_placed_word(*word) => Some(*word),
            _ => None,
        }
    }

    /// The word that comes next and its line, where it is one whose line trees have.
    pub fn placed_word(&self) -> Option<(Word, u32)>
        ensures { result ≡ placed_word (look self.now) }
    {
        match self.left {
            [
                Token {
                    kind: TokenKind::Word(word),
                    line,
                    ..
                },
                ..
            ] if is_placed_word(*word) => Some((*word, *line)),
            _ => None,
        }
    }

    /// The sign that comes next and its line, where it is one whose line trees have.
    pub fn placed_sign(&self) -> Option<(Sign, u32)>
        ensures { result ≡ placed_sign (look self.now) }
    {
        match self.left {
            [
                Token {
                    kind: TokenKind::Sign(sign),
                    line,
                    ..
                },
                ..
            ] if is_placed_sign(*sign) => Some((*sign, *line)),
            _ => None,
        }
    }

    /// Passes over a sign that has to come next, one whose line no tree has. `Unexpected` comes
    /// where it doesn't.
    pub fn expect(&mut self, sign: Sign) -> Result<(), Refusal>
        requires { is_placed_sign sign ≡ false }
        ensures taken { OnOk result ((is_sign sign self.old ≡ true) × (self.new ≡ tail self.old)) }
        ensures refused { OnErr result ((is_sign sign self.old ≡ false) × (self.new ≡ self.old)) }
        ensures cause { OnErr result (result ≡ Err Refusal.Unexpected) }
    {
        if !self.is_sign(sign) {
            return Err(Refusal::Unexpected);
        }
        self.skip();
        Ok(())
    }

    /// Takes a name that has to come next. `Unexpected` comes where none does, `Memory` where
    /// memory runs out.
    pub fn name(&mut self, alloc: Global) -> Result<Name, Refusal>
        ensures { Gives (λ name. name) (read_name self.old) result self.new }
    {
        let [
            Token {
                kind: TokenKind::Name(text),
                line,
                ..
            },
            left @ ..,
        ] = self.left
        else {
            return Err(Refusal::Unexpected);
        };
        self.left = left;
        Ok(Name {
            text: Text::from_slice(alloc, text.as_slice())?,
            line: *line,
        })
    }

    /// The number that comes next, if one does.
    pub fn next_number(&self) -> Option<i64>
        ensures { result ≡ next_number (look self.now) }
    {
        match self.left {
            [
                Token {
                    kind: TokenKind::Number(number),
                    ..
                },
                ..
            ] => Some(*number),
            _ => None,
        }
    }

    /// Takes a number that has to come next. `Unexpected` comes where none does.
    pub fn number(&mut self) -> Result<i64, Refusal>
        ensures { Gives (λ number. number) (read_number self.old) result self.new }
    {
        let [
            Token {
                kind: TokenKind::Number(number),
                ..
            },
            left @ ..,
        ] = self.left
        else {
            return Err(Refusal::Unexpected);
        };
        self.left = left;
        Ok(*number)
    }

    /// Takes a string that has to come next. `Unexpected` comes where none does, `Memory` where
    /// memory runs out.
    pub fn string(&mut self, alloc: Global) -> Result<Text, Refusal>
        ensures { Gives (λ held. held) (read_string self.old) result self.new }
    {
        let [
            Token {
                kind: TokenKind::Str(text),
                ..
            },
            left @ ..,
        ] = self.left
        else {
            return Err(Refusal::Unexpected);
        };
        self.left = left;
        Ok(Text::from_slice(alloc, text.as_slice())?)
    }
}
