//! What an answer says, beside what the lowering of its book gave.

ghost use Rattle.std.specs.Prelude.{◌≡◌, length};
ghost use Rattle.lower.specs.Promise.{reply_of, reply_words};
ghost use Rattle.replay.specs.Lent.{patterned};
ghost use Rattle.replay.specs.Said.{reply_said, left_as, same_reply, same};

use crate::bytes;
use crate::layout::{Header, Part};
use crate::lent::Pattern;
use lower::Counts;
use record::refusal::{Cause, Refusal};

// The reply that an answer says, in four words.
#[tactic(auto, unfolding(crate::specs::Said::reply_said, lower::specs::Promise::reply_words))]
fn said_words(h: Header) -> [u64; 4]
    ensures { result ≡ reply_words (reply_said h) }
{
    match h.cause {
        None => [
            0,
            u64::from(h.results.count),
            u64::from(h.diagnostics.count),
            u64::from(h.constants),
        ],
        Some(cause) => [u64::from(cause.number()), u64::from(h.place), 0, 0],
    }
}

/// Whether a reply is the one that an answer says. They are compared as words, since the numbers of a header have four
/// bytes and those of a reply two.
#[tactic(auto, using(crate::proofs::Sames::words_tell))]
pub(crate) fn reply_agrees(h: Header, reply: Result<Counts, Refusal>) -> bool
    ensures { result ≡ same_reply (reply_of reply) (reply_said h) }
{
    lower::reply_words(reply) == said_words(h)
}

/// Whether a slice is left as an answer says: its front as written, or zeros as far as it changed, and the rest as
/// lent.
pub(crate) fn slice_agrees(
    cause: Option<Cause>,
    part: Part,
    written: &[u8],
    left: &[u8],
    lent: Pattern,
) -> bool
    ensures { result ≡ same left.now
        (left_as cause part written.now (patterned (length left.now) lent.step lent.first)) }
{
    if cause.is_none() {
        return left.starts_with(written) && lent.goes_on(left, written.len());
    }
    if left.len() < part.changed {
        return false;
    }
    bytes::all_zero(&left[..part.changed]) && lent.goes_on(left, part.changed)
}
