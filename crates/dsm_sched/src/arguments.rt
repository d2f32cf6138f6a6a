//! The numbers that stand behind the name of an entry.

ghost use Rattle.std.specs.Prelude.{◌≡◌, map};
ghost use Rattle.dsm_sched.specs.Entries.{is_count, one_number, two_numbers, counted_number, counted_numbers};

use crate::words::number;

/// Whether this is a number of units or rounds.
pub(crate) fn is_count(count: u32) -> bool
    ensures { result ≡ is_count count }
{
    1 <= count && count <= 500_000
}

pub(crate) fn one_number(words: &[&[u8]]) -> Option<u32>
    ensures { result ≡ one_number (map (λ word. word.now) words.now) }
{
    match words {
        [word] => number(word),
        _ => None,
    }
}

pub(crate) fn two_numbers(words: &[&[u8]]) -> Option<(u32, u32)>
    ensures { result ≡ two_numbers (map (λ word. word.now) words.now) }
{
    match words {
        [first, second] => Some((number(first)?, number(second)?)),
        _ => None,
    }
}

/// One number, and how many units, which is 1 where it is left out.
pub(crate) fn counted_number(words: &[&[u8]]) -> Option<(u32, u32)>
    ensures { result ≡ counted_number (map (λ word. word.now) words.now) }
{
    match words {
        [word] => Some((number(word)?, 1)),
        _ => two_numbers(words),
    }
}

/// Two numbers, and how many units.
pub(crate) fn counted_numbers(words: &[&[u8]]) -> Option<(u32, u32, u32)>
    ensures { result ≡ counted_numbers (map (λ word. word.now) words.now) }
{
    match words {
        [first, second] => Some((number(first)?, number(second)?, 1)),
        [first, second, count] => Some((number(first)?, number(second)?, number(count)?)),
        _ => None,
    }
}
