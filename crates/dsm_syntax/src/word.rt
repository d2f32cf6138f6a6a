//! The words, which no name may be.

ghost use Rattle.std.specs.Prelude.{◌≡◌, map};
ghost use Rattle.dsm_syntax.specs.Fronts.{first_word, words};

/// A word of the language.
#[derive(Clone, Copy, Debug, PartialEq, Eq)]
pub enum Word {
    Int,
    Void,
    Shared,
    LockType,
    BarrierType,
    Bind,
    BindEach,
    BindBarrier,
    If,
    Else,
    While,
    For,
    Break,
    Continue,
    Return,
    Acquire,
    AcquireShared,
    Release,
    Barrier,
    Print,
}

/// How each word is written.
const WORDS: [(&[u8], Word); 20] = [
    (b"int", Word::Int),
    (b"void", Word::Void),
    (b"shared", Word::Shared),
    (b"lock_t", Word::LockType),
    (b"barrier_t", Word::BarrierType),
    (b"bind", Word::Bind),
    (b"bindeach", Word::BindEach),
    (b"bindb", Word::BindBarrier),
    (b"if", Word::If),
    (b"else", Word::Else),
    (b"while", Word::While),
    (b"for", Word::For),
    (b"break", Word::Break),
    (b"continue", Word::Continue),
    (b"return", Word::Return),
    (b"acquire", Word::Acquire),
    (b"acquire_shared", Word::AcquireShared),
    (b"release", Word::Release),
    (b"barrier", Word::Barrier),
    (b"print", Word::Print),
];

/// The word that is written so.
#[tactic(auto, unfolding(crate::specs::Fronts::words))]
pub fn word_of(text: &[u8]) -> Option<Word>
    ensures { result ≡ first_word words text.now }
{
    first_word(&WORDS, text)
}

fn first_word(table: &[(&[u8], Word)], text: &[u8]) -> Option<Word>
    ensures { result ≡ first_word (map (λ entry. (entry.0.now, entry.1)) table.now) text.now }
{
    for (spelling, word) in table {
        if *spelling == text {
            return Some(*word);
        }
    }
    None
}
