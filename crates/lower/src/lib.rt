//! The lowering of a signal book: from a lent book into two lent slices, results and diagnostics.

#![tactic(auto)]

ghost use Rattle.std.specs.Prelude.{◌≡◌};
ghost use Rattle.lower.specs.Promise.{reply_of, reply_words, Lowered, Exported};
ghost use Rattle.lower.specs.Counters.{counters_after};

pub mod claims;
mod parts;

use book::Book;
use record::refusal::Refusal;
use types::LowerCtx;

/// What the lowering of an accepted book counts: results and diagnostics written, constants stored.
#[derive(Clone, Copy, Debug, PartialEq, Eq, Hash)]
pub struct Counts {
    pub results: u16,
    pub diagnostics: u16,
    pub constants: u16,
}

/// The counters behind the lowering of a book, and the reply.
#[derive(Clone, Copy)]
pub struct Counted {
    pub ctx: LowerCtx,
    pub reply: Result<Counts, Refusal>,
}

/// Lowers a book: any bytes at all, into two slices of any lengths, with the counters by value. They are handed back
/// where causes 1 to 8 turn the book back, and else count from 0: numbers given, results and diagnostics written.
pub fn lower_counted(
    ctx: LowerCtx,
    book: &[u8],
    results: &mut [u8],
    diagnostics: &mut [u8],
) -> Counted
    ensures lowered { Lowered book.now results.old diagnostics.old result.reply results.new diagnostics.new }
    ensures ctx_value { result.ctx ≡ counters_after ctx book.now results.old diagnostics.old }
{
    match Book::read(book) {
        Ok(book) => parts::lower_read(&book, results, diagnostics),
        Err(refusal) => Counted {
            ctx,
            reply: Err(refusal),
        },
    }
}

/// Lowers a book: any bytes at all, into two slices of any lengths. Results and diagnostics are written from the front
/// of each. A book that causes 1 to 8 turn back leaves both as they were; 9 and 10 leave zeros up to the limits.
pub fn lower_book(
    book: &[u8],
    results: &mut [u8],
    diagnostics: &mut [u8],
) -> Result<Counts, Refusal>
    ensures { Lowered book.now results.old diagnostics.old result results.new diagnostics.new }
{
    lower_counted(LowerCtx::default(), book, results, diagnostics).reply
}

/// The reply as four words: 0 and the three counts; or the number of the cause, the place, and zeros.
#[tactic(auto, unfolding(crate::specs::Promise::reply_of, crate::specs::Promise::reply_words))]
pub fn reply_words(reply: Result<Counts, Refusal>) -> [u64; 4]
    ensures { result ≡ reply_words (reply_of reply) }
{
    match reply {
        Ok(
            Counts {
                results,
                diagnostics,
                constants,
            },
        ) => [
            0,
            u64::from(results),
            u64::from(diagnostics),
            u64::from(constants),
        ],
        Err(Refusal { cause, place }) => [u64::from(cause.number()), u64::from(place), 0, 0],
    }
}

/// Lowers a book for a caller in Rust or C, with the reply in four words: `lower_c` exports it.
pub fn signal_book_lower(
    book: &[u8],
    results: &mut [u8],
    diagnostics: &mut [u8],
    reply: &mut [u64; 4],
)
    ensures { Exported book.now results.old diagnostics.old reply.new results.new diagnostics.new }
{
    *reply = reply_words(lower_book(book, results, diagnostics));
}
