//! The signs.

ghost use Rattle.std.specs.Prelude.{◌≡◌, map};
ghost use Rattle.dsm_syntax.specs.Fronts.{first_sign, signs};

/// A sign of the language.
#[derive(Clone, Copy, Debug, PartialEq, Eq)]
pub enum Sign {
    ParenOpen,
    ParenClose,
    BraceOpen,
    BraceClose,
    BracketOpen,
    BracketClose,
    Semicolon,
    Comma,
    Question,
    Colon,
    Assign,
    PlusAssign,
    MinusAssign,
    StarAssign,
    SlashAssign,
    PercentAssign,
    AndAssign,
    OrAssign,
    CaretAssign,
    ShiftLeftAssign,
    ShiftRightAssign,
    OrOr,
    AndAnd,
    Or,
    Caret,
    And,
    Equal,
    NotEqual,
    Less,
    LessEqual,
    Greater,
    GreaterEqual,
    ShiftLeft,
    ShiftRight,
    Plus,
    Minus,
    Star,
    Slash,
    Percent,
    Not,
    Tilde,
    PlusPlus,
    MinusMinus,
}

/// How each sign is written, the longest first.
const SIGNS: [(&[u8], Sign); 43] = [
    (b"<<=", Sign::ShiftLeftAssign),
    (b">>=", Sign::ShiftRightAssign),
    (b"+=", Sign::PlusAssign),
    (b"-=", Sign::MinusAssign),
    (b"*=", Sign::StarAssign),
    (b"/=", Sign::SlashAssign),
    (b"%=", Sign::PercentAssign),
    (b"&=", Sign::AndAssign),
    (b"|=", Sign::OrAssign),
    (b"^=", Sign::CaretAssign),
    (b"||", Sign::OrOr),
    (b"&&", Sign::AndAnd),
    (b"==", Sign::Equal),
    (b"!=", Sign::NotEqual),
    (b"<=", Sign::LessEqual),
    (b">=", Sign::GreaterEqual),
    (b"<<", Sign::ShiftLeft),
    (b">>", Sign::ShiftRight),
    (b"++", Sign::PlusPlus),
    (b"--", Sign::MinusMinus),
    (b"(", Sign::ParenOpen),
    (b")", Sign::ParenClose),
    (b"{", Sign::BraceOpen),
    (b"}", Sign::BraceClose),
    (b"[", Sign::BracketOpen),
    (b"]", Sign::BracketClose),
    (b";", Sign::Semicolon),
    (b",", Sign::Comma),
    (b"?", Sign::Question),
    (b":", Sign::Colon),
    (b"=", Sign::Assign),
    (b"|", Sign::Or),
    (b"^", Sign::Caret),
    (b"&", Sign::And),
    (b"<", Sign::Less),
    (b">", Sign::Greater),
    (b"+", Sign::Plus),
    (b"-", Sign::Minus),
    (b"*", Sign::Star),
    (b"/", Sign::Slash),
    (b"%", Sign::Percent),
    (b"!", Sign::Not),
    (b"~", Sign::Tilde),
];

/// The longest sign at the front of a text, and its length.
#[tactic(auto, unfolding(crate::specs::Fronts::signs))]
pub fn sign_at(text: &[u8]) -> Option<(Sign, usize)>
    ensures { result ≡ first_sign signs text.now }
{
    first_sign(&SIGNS, text)
}

fn first_sign(table: &[(&[u8], Sign)], text: &[u8]) -> Option<(Sign, usize)>
    ensures { result ≡ first_sign (map (λ entry. (entry.0.now, entry.1)) table.now) text.now }
{
    for (spelling, sign) in table {
        if text.starts_with(spelling) {
            return Some((*sign, spelling.len()));
        }
    }
    None
}
