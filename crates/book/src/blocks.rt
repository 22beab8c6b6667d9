//! The blocks of a book: causes 1 to 3, and the count of its records.

ghost use Rattle.std.specs.Prelude.{◌≡◌, cond, not, ◌&&◌, ◌-◌, ◌+◌, ◌*◌, ◌≤◌, ◌<◌, eqb, leb, ltb, ◌==◌, take, drop, length};
ghost use Rattle.std.specs.List.{list_all};
ghost use Rattle.book.specs.Lists.{any};
ghost use Rattle.book.specs.Blocks.{blocks, length_fault};

use crate::BLOCKS;
use record::refusal::{Cause, Refusal};
use record::{BLOCK_BYTES, BLOCK_RECORDS, HEADER_BYTES, RECORD_BYTES, bytes, check};

// Where the two zero bytes before the check end.
const CHECK_AT: usize = 510;

// Whether no book has such a length.
#[tactic(auto, unfolding(crate::specs::Blocks::length_fault))]
fn length_fault(book: &[u8]) -> bool
    ensures { result ≡ length_fault book.now }
{
    book.len() == 0 || BLOCKS * BLOCK_BYTES < book.len() || book.len() % BLOCK_BYTES != 0
}

// Whether a block may have so many records.
fn count_holds(count: u8, last: bool) -> bool
    ensures { result ≡ cond last (leb 1 count && leb count 21) (eqb count 21) }
{
    if last {
        1 <= count && u16::from(count) <= BLOCK_RECORDS
    } else {
        u16::from(count) == BLOCK_RECORDS
    }
}

// Whether byte 3 of block k may be this: in block 0 it tells of wildcard imports.
fn byte3_holds(byte: u8, k: u16) -> bool
    ensures { result ≡ cond (eqb k 0) (ltb byte 2) (eqb byte 0) }
{
    if k == 0 { byte < 2 } else { byte == 0 }
}

// Whether the bytes behind so many records of a block, up to its check, are zero.
fn rest_holds(block: &[u8], count: u8) -> bool
    requires { (512 ≤ length block.now) × (count ≤ 21) }
    ensures { result ≡ not (any (λ x. not (eqb x 0)) (take (510 - (4 + 24 * count)) (drop (4 + 24 * count) block.now))) }
{
    bytes::are_zero(&block[HEADER_BYTES + RECORD_BYTES * usize::from(count)..CHECK_AT])
}

/// The blocks of a book that has a right length.
#[derive(Clone, Copy)]
pub(crate) struct Blocks<'a> {
    bytes: &'a [u8],
    count: u16,
    ghost counted: { count ≡ blocks bytes.now },
    ghost some: { 0 < count },
    ghost few: { count ≤ 64 },
}

impl<'a> Blocks<'a> {
    ghost use Rattle.std.specs.Prelude.{true, false, IfOk, IfErr};
    ghost use mathlib.Core.List.{flat_map};
    ghost use Rattle.record.specs.declared.refusal.Cause.TheVariants.{BookLength};
    ghost use Rattle.book.specs.Lists.{find, up_to};
    ghost use Rattle.book.specs.Blocks.{block_fault, record_count, wildcards};
    ghost use Rattle.book.specs.Refusal.{at_block, holds};
    ghost use Rattle.book.specs.Answer.{outcome};

    /// The blocks of a book, or cause 1: its length.
    pub(crate) fn of(bytes: &'a [u8]) -> Result<Blocks<'a>, Refusal>
        ensures right { IfOk result (λ b. (b.bytes.now ≡ bytes.entry.now) × (length_fault bytes.entry.now ≡ false)) }
        ensures wrong { IfErr result (λ e. (length_fault bytes.entry.now ≡ true) × (e ≡ record { cause = BookLength; place = 0 })) }
    {
        if length_fault(bytes) {
            return Err(Refusal {
                cause: Cause::BookLength,
                place: 0,
            });
        }
        Ok(Blocks {
            bytes,
            count: (bytes.len() / BLOCK_BYTES) as u16,
        })
    }

    // Whether block k keeps the rules other than its check.
    #[tactic(auto, unfolding(crate::specs::Blocks::block_fault))]
    fn block_holds(&self, k: u16) -> bool
        requires { k < self.now.count }
        ensures { block_fault self.now.bytes.now k ≡ not result }
    {
        let block = bytes::from(self.bytes, BLOCK_BYTES * usize::from(k));
        let count = block[2];
        bytes::two(block) == k
            && count_holds(count, k + 1 == self.count)
            && byte3_holds(block[3], k)
            && rest_holds(block, count)
    }

    // Causes 2 and 3 at block k.
    fn check_block(&self, k: u16) -> Result<(), Refusal>
        requires { k < self.now.count }
        ensures { result ≡ outcome (find (holds self.now.bytes.now) (at_block k)) }
    {
        if !check::check_holds(self.bytes, k) {
            return Err(Refusal {
                cause: Cause::Check,
                place: k,
            });
        }
        if !self.block_holds(k) {
            return Err(Refusal {
                cause: Cause::Block,
                place: k,
            });
        }
        Ok(())
    }

    /// Causes 2 and 3.
    pub(crate) fn check(&self) -> Result<(), Refusal>
        ensures { result ≡ outcome (find (holds self.now.bytes.now) (flat_map at_block (up_to (blocks self.now.bytes.now)))) }
    {
        for k in 0..self.count {
            self.check_block(k)?;
        }
        Ok(())
    }

    /// The number of records: every block but the last has as many as fit.
    #[tactic(auto, unfolding(crate::specs::Blocks::record_count))]
    pub(crate) fn record_count(&self) -> u16
        ensures { result ≡ record_count self.now.bytes.now }
    {
        let last = self.count - 1;
        let block = bytes::from(self.bytes, BLOCK_BYTES * usize::from(last));
        BLOCK_RECORDS * last + u16::from(block[2])
    }

    /// Whether byte 3 of the book tells of wildcard imports.
    #[tactic(auto, unfolding(crate::specs::Blocks::wildcards))]
    pub(crate) fn wildcards(&self) -> bool
        ensures { result ≡ wildcards self.now.bytes.now }
    {
        self.bytes[3] == 1
    }
}
