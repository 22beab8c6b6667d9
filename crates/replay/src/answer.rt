//! One answer: a header, a book, and what was written for it.

ghost use Rattle.std.specs.Prelude.{◌≡◌, length};
ghost use Rattle.lower.specs.Promise.{reply_of};
ghost use Rattle.replay.specs.Lent.{patterned};
ghost use Rattle.replay.specs.Finding.{complete, formed, found, finding_into, finding};

use crate::layout::Header;
use crate::lent::Pattern;
use crate::{agree, said};
use lower::Counts;
use record::RECORD_BYTES;
use record::refusal::Refusal;
use types::{MOST_DIAGNOSTICS, MOST_RESULTS};

/// The longest slices that a header in range can ask for, in bytes: two records past the limits. They are arrays, so
/// that what is found of an answer never fails for want of memory.
pub(crate) const RESULT_BYTES: usize = RECORD_BYTES * (MOST_RESULTS as usize + 2);

pub(crate) const DIAGNOSTIC_BYTES: usize = RECORD_BYTES * (MOST_DIAGNOSTICS as usize + 2);

// What the two slices are filled with.
const RESULT_PATTERN: Pattern = Pattern { step: 5, first: 17 };

const DIAGNOSTIC_PATTERN: Pattern = Pattern { step: 3, first: 29 };

/// An answer as it was read: its header, its book, and the records that follow, if the book is accepted.
#[derive(Clone, Copy)]
pub struct Answer<'a> {
    pub header: Header,
    pub book: &'a [u8],
    pub results: &'a [u8],
    pub diagnostics: &'a [u8],
}

/// What is found of an answer: whether it is right; and what its book counts, if the lowering accepts it.
#[derive(Clone, Copy, Debug)]
pub struct Finding {
    pub right: bool,
    pub counts: Option<Counts>,
}

// What is found of an answer that is right or not, by the reply to its book.
#[tactic(auto, unfolding(crate::specs::Finding::found, lower::specs::Promise::reply_of))]
fn found(right: bool, reply: Result<Counts, Refusal>) -> Finding
    ensures { result ≡ found right (reply_of reply) }
{
    Finding {
        right,
        counts: reply.ok(),
    }
}

impl Answer<'_> {
    // Whether as many bytes stand behind the header as it says.
    #[tactic(auto, unfolding(crate::specs::Finding::complete))]
    fn is_complete(self) -> bool
        ensures { result
            ≡ complete self.entry.header (length self.entry.book.now) (length self.entry.results.now)
            (length self.entry.diagnostics.now) }
    {
        let h = self.header;
        (self.book.len() == h.book)
            && (self.results.len() == agree::following(h.cause, h.results))
            && (self.diagnostics.len() == agree::following(h.cause, h.diagnostics))
    }

    // Whether the answer has the form that it should have, before its book is lowered.
    #[tactic(auto, unfolding(crate::specs::Finding::formed))]
    fn is_formed(self) -> bool
        ensures { result
            ≡ formed self.entry.header (length self.entry.book.now) (length self.entry.results.now)
            (length self.entry.diagnostics.now) }
    {
        agree::header_agrees(self.header)
            && agree::book_suits(self.header, self.book.len())
            && self.is_complete()
    }

    // What is found when the book is lowered into two slices. Byte i of that for the results is lent as 5 i + 17, of
    // that for the diagnostics as 3 i + 29, modulo 256.
    fn replay_into(self, own_results: &mut [u8], own_diagnostics: &mut [u8]) -> Finding
        ensures { result
            ≡ finding_into self.entry.header self.entry.book.now self.entry.results.now self.entry.diagnostics.now
            (patterned (length own_results.old) 5 17) (patterned (length own_diagnostics.old) 3 29) }
    {
        RESULT_PATTERN.fill(own_results);
        DIAGNOSTIC_PATTERN.fill(own_diagnostics);
        let Header {
            cause,
            results,
            diagnostics,
            ..
        } = self.header;
        let reply = lower::lower_book(self.book, own_results, own_diagnostics);
        let formed = self.is_formed();
        let agrees = said::reply_agrees(self.header, reply)
            & said::slice_agrees(cause, results, self.results, own_results, RESULT_PATTERN)
            & said::slice_agrees(
                cause,
                diagnostics,
                self.diagnostics,
                own_diagnostics,
                DIAGNOSTIC_PATTERN,
            );
        found(formed & agrees, reply)
    }

    /// What is found of the answer: its book is lowered into slices as long as the answer says.
    pub(crate) fn replay(self) -> Finding
        ensures { result
            ≡ finding self.entry.header self.entry.book.now self.entry.results.now self.entry.diagnostics.now }
    {
        let mut own_results = [0u8; RESULT_BYTES];
        let mut own_diagnostics = [0u8; DIAGNOSTIC_BYTES];
        let r = self.header.results.lent.min(RESULT_BYTES);
        let d = self.header.diagnostics.lent.min(DIAGNOSTIC_BYTES);
        self.replay_into(&mut own_results[..r], &mut own_diagnostics[..d])
    }
}
