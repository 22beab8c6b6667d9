//! The numbers of a header against each other, and against the lengths of what stands behind it.

ghost use Rattle.std.specs.Prelude.{◌≡◌, eqb};
ghost use Rattle.replay.specs.Agree.{used_limit, changes, counts, follows, agrees};
ghost use Rattle.replay.specs.Agree.{blocks_in, right_length, places_in, suits};

use crate::layout::{Header, Part};
use book::BLOCKS;
use record::refusal::Cause;
use record::{BLOCK_BYTES, BLOCK_RECORDS, RECORD_BYTES};
use types::{MOST_DIAGNOSTICS, MOST_RESULTS};

// The bytes up to the used limit of a slice.
fn used_limit(most: u16, bytes: usize) -> usize
    ensures { result ≡ used_limit most bytes }
{
    RECORD_BYTES * usize::from(most).min(bytes / RECORD_BYTES)
}

// Whether as many bytes of a slice changed as the cause lets change.
#[tactic(auto, unfolding(crate::specs::Agree::changes))]
fn changes_right(cause: Option<Cause>, most: u16, part: Part) -> bool
    ensures { result ≡ eqb part.changed (changes cause most part) }
{
    match cause {
        None => part.changed == RECORD_BYTES * part.count as usize,
        Some(Cause::TooDeep | Cause::Full) => part.changed == used_limit(most, part.lent),
        Some(_) => part.changed == 0,
    }
}

// Whether a refusal counts nothing. The three counts of a header stand in no one value that could be compared by `==`.
fn counts_right(h: Header) -> bool
    ensures { result ≡ counts h }
{
    h.cause.is_none() || (h.results.count == 0) && (h.diagnostics.count == 0) && (h.constants == 0)
}

/// Whether the numbers agree with each other.
#[tactic(auto, unfolding(crate::specs::Agree::agrees))]
pub(crate) fn header_agrees(h: Header) -> bool
    ensures { result ≡ agrees h }
{
    counts_right(h)
        && changes_right(h.cause, MOST_RESULTS, h.results)
        && changes_right(h.cause, MOST_DIAGNOSTICS, h.diagnostics)
}

/// The bytes of a slice that follow the book.
#[tactic(auto, unfolding(crate::specs::Agree::follows))]
pub(crate) fn following(cause: Option<Cause>, part: Part) -> usize
    ensures { result ≡ follows cause part }
{
    match cause {
        None => part.changed,
        Some(_) => 0,
    }
}

// The blocks of a book of n bytes, at most 64.
fn block_count(n: usize) -> u16
    ensures { result ≡ blocks_in n }
{
    (n / BLOCK_BYTES).min(BLOCKS) as u16
}

// Whether a book may have n bytes. Said here again and not asked of `book`: what an answer says is judged apart from
// the reading of its book.
fn right_length(n: usize) -> bool
    ensures { result ≡ right_length n }
{
    (BLOCK_BYTES <= n) && (n <= BLOCKS * BLOCK_BYTES) && (n % BLOCK_BYTES == 0)
}

// Places are below this, by cause, in a book of n blocks.
#[tactic(auto, unfolding(crate::specs::Agree::places_in))]
fn places(cause: Option<Cause>, n: u16) -> u32
    ensures { result ≡ places_in cause n }
{
    match cause {
        None | Some(Cause::BookLength) => 1,
        Some(Cause::Check | Cause::Block) => u32::from(n),
        Some(_) => u32::from(BLOCK_RECORDS) * u32::from(n),
    }
}

/// Whether a book of n bytes can have this reply, by its length and the place.
#[tactic(auto, unfolding(crate::specs::Agree::suits))]
pub(crate) fn book_suits(h: Header, n: usize) -> bool
    ensures { result ≡ suits h n }
{
    let length_suits = match h.cause {
        Some(Cause::BookLength) => !right_length(n),
        _ => right_length(n),
    };
    length_suits && (h.place < places(h.cause, block_count(n)))
}
