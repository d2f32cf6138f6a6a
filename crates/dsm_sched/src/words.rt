//! The words of a line, and the numbers among them.

ghost use Rattle.std.specs.Prelude.{◌≡◌, ◌≤◌, length, map, drop, IfOk};
ghost use Rattle.std.specs.List.{prefix_len};
ghost use Rattle.dsm_sched.specs.Words.{words_of, number_of, begins_well, before_comment, not_hash, is_blank, not_blank};

use dsm_base::MemFault;
use std::alloc::Global;

fn is_blank(byte: u8) -> bool
    ensures { result ≡ is_blank byte }
{
    byte == b' ' || byte == b'\t'
}

/// Where a comment begins, or the line's end.
fn comment_at(line: &[u8]) -> usize
    ensures { result ≡ prefix_len not_hash line.now }
{
    line.iter().take_while(|byte| **byte != b'#').count()
}

/// What stands before a comment.
fn before_comment(line: &[u8]) -> &[u8]
    ensures { result.now ≡ before_comment line.now }
{
    &line[..comment_at(line)]
}

/// How many blanks a line begins with.
fn blanks_len(line: &[u8]) -> usize
    ensures len { result ≡ prefix_len is_blank line.now }
    ensures within { result ≤ length line.now }
{
    line.iter().take_while(|byte| is_blank(**byte)).count()
}

/// The same without the blanks that it begins with.
fn skip_blanks(line: &[u8]) -> &[u8]
    ensures { result.now ≡ drop (prefix_len is_blank line.now) line.now }
{
    &line[blanks_len(line)..]
}

/// How many bytes stand before the first blank.
fn word_len(line: &[u8]) -> usize
    ensures { result ≡ prefix_len not_blank line.now }
{
    line.iter().take_while(|byte| !is_blank(**byte)).count()
}

/// The words of a line, parted by blanks, without its comment.
pub(crate) fn words(alloc: Global, line: &[u8]) -> Result<Vec<&[u8]>, MemFault>
    ensures { IfOk result (λ words. map (λ word. word.now) words.items ≡ words_of line.now) }
{
    let mut words = Vec::new(alloc);
    let mut rest = skip_blanks(before_comment(line));
    while !rest.is_empty() {
        let (word, more) = rest.split_at(word_len(rest));
        words.push(word)?;
        rest = skip_blanks(more);
    }
    Ok(words)
}

/// Whether there is a first byte, which is no `0` unless it is the only one.
fn begins_well(word: &[u8]) -> bool
    ensures { result ≡ begins_well word.now }
{
    match word {
        [] => false,
        [first, others @ ..] => *first != b'0' || others.is_empty(),
    }
}

/// The number that a word stands for: `0`, or up to nine digits that don't begin with 0.
pub(crate) fn number(word: &[u8]) -> Option<u32>
    ensures { result ≡ number_of word.now }
{
    if !begins_well(word) || word.len() > 9 {
        return None;
    }
    let mut value = 0;
    for digit in word {
        if !digit.is_ascii_digit() {
            return None;
        }
        value = value * 10 + u32::from(*digit - b'0');
    }
    Some(value)
}
