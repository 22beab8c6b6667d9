//! The check of a block: RFC 1071 over its first 255 big-endian words.

ghost use Rattle.std.specs.Prelude.{◌≡◌, ◌+◌, ◌*◌, ◌^◌, ◌≤◌, length, slice_index};
ghost use Rattle.record.specs.Check.{words, once, SumsUp, block_check, check_holds};

use crate::{BLOCK_BYTES, bytes};

// Word k of s. A byte past the end counts as 0.
#[tactic(auto, using(crate::proofs::Sums::word_at))]
fn word_at(s: &[u8], k: u16) -> u16
    ensures { result ≡ slice_index (words s.now) k }
{
    let at = 2 * usize::from(k);
    u16::from_be_bytes([bytes::byte(s, at), bytes::byte(s, at + 1)])
}

// Two neighbouring words of s as one number of 32 bits: 2 k and the one behind it, all of whose bytes are there.
#[tactic(auto, using(crate::proofs::Sums::pair_there))]
fn pair_at(s: &[u8], k: usize) -> u32
    requires { 4 * k + 4 ≤ length s.now }
    ensures { result ≡ 65536 * slice_index (words s.now) (2 * k) + slice_index (words s.now) (2 * k + 1) }
{
    let at = 4 * k;
    u32::from_be_bytes([s[at], s[at + 1], s[at + 2], s[at + 3]])
}

// The sum of the first 255 words of s, all of which are there, two at a time, in about a tenth of the instructions: the
// first of two counts 65,536 times, which is once, as soon as carries go round. As `map` and `sum` over a range it was
// tried: that each pair is there and that the sum fits did not prove.
fn sum_pairs(s: &[u8]) -> u64
    requires { 510 ≤ length s.now }
    ensures { SumsUp s.now result }
{
    let mut sum: u64 = 0;
    for k in 0..127 {
        sum += u64::from(pair_at(s, k));
    }
    sum + u64::from(word_at(s, 254))
}

// The same one after the other, whatever is there of them; a loop for the same reason.
fn sum_singly(s: &[u8]) -> u64
    ensures { SumsUp s.now result }
{
    let mut sum: u64 = 0;
    for k in 0..255 {
        sum += u64::from(word_at(s, k));
    }
    sum
}

// The sum of the first 255 words of s.
fn sum_words(s: &[u8]) -> u64
    ensures { SumsUp s.now result }
{
    if 510 <= s.len() {
        sum_pairs(s)
    } else {
        sum_singly(s)
    }
}

// The carries out of 16 bits, added in at the bottom.
fn fold(sum: u64) -> u64
    ensures { result ≡ once sum }
{
    sum % 65536 + sum / 65536
}

/// The check that a block should carry: the sum of its words but the last, carries folded in, inverted. After three
/// folds no carry is left.
#[tactic(auto, using(crate::proofs::Sums::lates))]
pub fn block_check(book: &[u8], block: u16) -> u16
    ensures { result ≡ block_check book.now block }
{
    let sum = sum_words(bytes::from(book, BLOCK_BYTES * usize::from(block)));
    let first = fold(sum);
    let second = fold(first);
    let third = fold(second);
    (65535 - third) as u16
}

/// Whether the last word of a block is its check.
#[tactic(auto, unfolding(crate::specs::Check::check_holds), using(crate::proofs::Sums::last_word))]
pub fn check_holds(book: &[u8], block: u16) -> bool
    ensures { result ≡ check_holds book.now block }
{
    let last = word_at(bytes::from(book, BLOCK_BYTES * usize::from(block)), 255);
    last == block_check(book, block)
}
