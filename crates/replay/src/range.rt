//! The range of each number of a header.

ghost use Rattle.std.specs.Prelude.{◌≡◌};
ghost use Rattle.replay.specs.Range.{part_in_range, in_range, well_formed};

use crate::answer::{DIAGNOSTIC_BYTES, RESULT_BYTES};
use crate::layout::{Header, Part};
use crate::{bytes, layout};
use book::{BLOCKS, RECORDS};
use record::BLOCK_BYTES;
use types::{MOST_DIAGNOSTICS, MOST_RESULTS};

/// The longest book in a list: one block past the limit.
pub(crate) const BOOK_BYTES: usize = (BLOCKS + 1) * BLOCK_BYTES;

// Whether the numbers of a slice are in range: at most `bytes` lent, at most `most` records, and no more changed than
// lent.
fn part_in_range(bytes: usize, most: u16, part: Part) -> bool
    ensures { result ≡ part_in_range bytes most part }
{
    (part.lent <= bytes) && (part.count <= u32::from(most)) && (part.changed <= part.lent)
}

// Whether every number of a header but that of its cause is in range.
#[tactic(auto, unfolding(crate::specs::Range::in_range))]
fn in_range(h: Header) -> bool
    ensures { result ≡ in_range h }
{
    (h.book <= BOOK_BYTES)
        && (h.place < RECORDS as u32)
        && (h.constants <= h.results.count)
        && part_in_range(RESULT_BYTES, MOST_RESULTS, h.results)
        && part_in_range(DIAGNOSTIC_BYTES, MOST_DIAGNOSTICS, h.diagnostics)
}

/// Whether the 64 bytes of s are a header that can be read on from.
#[tactic(auto, unfolding(crate::specs::Range::well_formed))]
pub(crate) fn header_ok(s: &[u8; 64]) -> bool
    ensures { result ≡ well_formed s.now }
{
    bytes::is_name(&s[..24]) && (bytes::number(s, 36) <= 10) && in_range(layout::header_of(s))
}
