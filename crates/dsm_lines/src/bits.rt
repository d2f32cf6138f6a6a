//! Bits in words of 64.

ghost use Rattle.std.specs.Prelude.{◌≡◌, ◌≢◌, ℕ, ◌*◌, ◌/◌, ◌^◌, ◌<◌, true, false, length, slice_index, IfSome, IfNone};
ghost use Rattle.dsm_base.specs.Family.{update};
ghost use Rattle.dsm_lines.specs.Bits.{is_bit, is_bit_of, IsFirst};

use sqlite_items::Items;

/// Whether a bit is set.
pub fn has_bit(words: &[u64], at: usize) -> bool
    ensures { result ≡ is_bit words.now at }
{
    match words.get(at / 64) {
        Some(word) => (*word >> (at % 64)) & 1 == 1,
        None => false,
    }
}

/// Sets one bit.
pub fn set_bit(words: &mut Items<u64>, at: usize)
    requires { at / 64 < length words.old }
    ensures bits { is_bit words.new ≡ update (is_bit words.old) at true }
    ensures others { (word : ℕ) → word ≢ at / 64 →
        slice_index words.new word ≡ slice_index words.old word }
    ensures length { length words.new ≡ length words.old }
{
    let word = words.as_slice()[at / 64];
    words.set(at / 64, word | (1 << (at % 64)));
}

/// Clears one bit.
pub fn clear_bit(words: &mut Items<u64>, at: usize)
    requires { at / 64 < length words.old }
    ensures bits { is_bit words.new ≡ update (is_bit words.old) at false }
    ensures others { (word : ℕ) → word ≢ at / 64 →
        slice_index words.new word ≡ slice_index words.old word }
    ensures length { length words.new ≡ length words.old }
{
    let word = words.as_slice()[at / 64];
    words.set(at / 64, word & !(1 << (at % 64)));
}

/// The first set bit of a word from this one on.
pub fn first_of_word(word: u64, from: usize) -> Option<usize>
    requires { from < 64 }
    ensures first { IsFirst (is_bit_of word) from result }
    ensures below { IfSome result (λ bit. bit < 64) }
    ensures none { IfNone result (word / 2 ^ from ≡ 0) }
{
    let rest = word >> from;
    if rest == 0 {
        None
    } else {
        Some(from + rest.trailing_zeros() as usize)
    }
}

/// The first set bit in the words from this one on.
fn first_of_words(words: &[u64], from: usize) -> Option<usize>
    requires { 64 * length words.now < 2 ^ 64 }
    ensures { IsFirst (is_bit words.now) (64 * from) result }
{
    for at in from..words.len() {
        if let Some(bit) = first_of_word(words[at], 0) {
            return Some(64 * at + bit);
        }
    }
    None
}

/// The first set bit from this one on.
pub fn first_bit(words: &[u64], from: usize) -> Option<usize>
    requires { 64 * length words.now < 2 ^ 64 }
    ensures { IsFirst (is_bit words.now) from result }
{
    let at = from / 64;
    if at >= words.len() {
        return None;
    }
    match first_of_word(words[at], from % 64) {
        Some(bit) => Some(64 * at + bit),
        None => first_of_words(words, at + 1),
    }
}
