//! Tokens.

ghost use Rattle.std.specs.Prelude.{IsTrue};
ghost use Rattle.dsm_syntax.specs.Sound.{are_sound};

use crate::sign::Sign;
use crate::word::Word;
use dsm_base::Text;
use sqlite_items::Items;
use std::marker::Model;

/// What a token is.
#[derive(Debug, Drop)]
pub enum TokenKind {
    /// A name that is no word.
    Name(Text),
    /// A number, which is at least 0.
    Number(i64),
    /// A string, by what stands between its quotes.
    Str(Text),
    /// A word of the language.
    Word(Word),
    /// A sign.
    Sign(Sign),
}

/// A token, with its first byte, its length and its line in the text. Lines are counted from 1.
#[derive(Debug, Drop)]
pub struct Token {
    pub kind: TokenKind,
    pub at: u32,
    pub len: u32,
    pub line: u32,
}

/// Tokens in the order of the text, which contracts see as a list. No number is below 0, and no
/// string holds a byte that it may not.
#[derive(Debug, Drop)]
pub struct Tokens {
    list: Items<Token>,
    ghost sound: { IsTrue (are_sound list) },
}

impl Model for Tokens {
    ghost use Rattle.std.specs.Prelude.{List};
    ghost use Rattle.dsm_syntax.specs.declared.token.Token.{Token};

    ghost Value = { List Token };

    ghost view = { λ tokens. tokens.list };
}

impl Tokens {
    ghost use Rattle.std.specs.Prelude.{◌≡◌, length};

    /// The same tokens.
    pub fn new(list: Items<Token>) -> Tokens
        requires { IsTrue (are_sound list) }
        ensures { result ≡ list }
    {
        Tokens { list }
    }

    /// The tokens in order.
    pub fn as_slice(&self) -> &[Token]
        ensures value { result.now ≡ self.now }
        ensures sound { IsTrue (are_sound self.now) }
    {
        self.list.as_slice()
    }

    /// How many tokens there are.
    pub fn len(&self) -> usize
        ensures { result ≡ length self.now }
    {
        self.list.len()
    }
}
