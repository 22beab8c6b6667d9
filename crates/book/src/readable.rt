//! A book that is read: made of bytes that none of causes 1 to 8 refuses, or that are known to be readable.

ghost use Rattle.std.specs.Prelude.{◌≡◌, ◌≤◌, ◌+◌, ◌*◌, ◌/◌, ◌%◌, length, IfOk, Result};
ghost use Rattle.record.specs.Kind.{kind_from};
ghost use Rattle.book.specs.Blocks.{record_count, wildcards};
ghost use Rattle.book.specs.Trees.{Readable};
ghost use Rattle.book.specs.Outline.{read, ◌!◌};
ghost use Rattle.book.specs.Accepted.{book_of, Kept, IsRead, Earlier};

use crate::blocks::Blocks;
use crate::scan;
use record::kind::{Kind, UnknownKind};
use record::refusal::Refusal;
use record::{BLOCK_BYTES, BLOCK_RECORDS, HEADER_BYTES, RECORD_BYTES, Record, bytes};
use std::marker::Model;

/// A book that can be read: its bytes, how many records it has, and whether there are wildcard imports. It is not
/// `Copy`, since a struct that has a lifetime and a model cannot be.
#[derive(Clone, Drop)]
pub struct Book<'a> {
    bytes: &'a [u8],
    count: u16,
    wildcards: bool,
}

impl<'a> Model for Book<'a> {
    ghost use Rattle.book.specs.Outline.{Book};
    ghost use Rattle.book.specs.Accepted.{book_in, Held};

    ghost Value = { Book };

    ghost view = { λ b. book_in b.bytes.now b.count b.wildcards };

    ghost invariant = { λ b. Held b.bytes.now b.count b.wildcards };
}

// How many records stand in readable bytes: every block but the last has as many as fit.
#[tactic(auto, unfolding(crate::specs::Blocks::record_count))]
fn count_of(book: &[u8]) -> u16
    requires { record_count book.now ≤ 1344 }
    ensures { result ≡ record_count book.now }
{
    let last = (book.len() / BLOCK_BYTES).saturating_sub(1);
    let block = bytes::from(book, BLOCK_BYTES * last);
    BLOCK_RECORDS * last as u16 + u16::from(bytes::byte(block, 2))
}

// Whether byte 3 of a book tells of wildcard imports. A byte past the end counts as 0.
#[tactic(auto, unfolding(crate::specs::Blocks::wildcards))]
fn wildcards_of(book: &[u8]) -> bool
    ensures { result ≡ wildcards book.now }
{
    bytes::byte(book, 3) == 1
}

// Where record n of a book ends.
fn end_of(n: u16) -> usize
    ensures { result ≡ 512 * (n / 21) + 4 + 24 * (n % 21) + 24 }
{
    let block = usize::from(n / BLOCK_RECORDS);
    let before = usize::from(n % BLOCK_RECORDS);
    BLOCK_BYTES * block + HEADER_BYTES + RECORD_BYTES * before + RECORD_BYTES
}

impl<'a> Book<'a> {
    /// The book that the bytes are, or why and where they are turned back: by the first of causes 1 to 8 that holds.
    pub fn read(bytes: &'a [u8]) -> Result<Book<'a>, Refusal>
        ensures answer { result ≡ book_of bytes.entry.now }
        ensures readable { IfOk result (λ _. Readable bytes.entry.now) }
        ensures kept { IfOk result (λ book. Kept bytes.entry.now (length book.records) book.wildcards) }
    {
        let blocks = Blocks::of(bytes)?;
        blocks.check()?;
        let count = blocks.record_count();
        scan::check_records(bytes, count)?;
        Ok(Book {
            bytes,
            count,
            wildcards: blocks.wildcards(),
        })
    }

    /// The book in bytes that are known to be readable, whatever their checks and the bytes behind the last record are:
    /// these are left out, so that behind the last record there is none.
    pub fn of_readable(bytes: &'a [u8]) -> Book<'a>
        requires { Readable bytes.now }
        ensures { result ≡ read bytes.entry.now }
    {
        let count = count_of(bytes);
        Book {
            bytes: &bytes[..end_of(count - 1)],
            count,
            wildcards: wildcards_of(bytes),
        }
    }

    /// Record `n`, all zeros where there is none, since the bytes that are kept are zero or end behind the last record.
    /// Its children are earlier records.
    pub fn record(&self, n: u16) -> Record
        ensures value { result ≡ self.now ! n }
        ensures earlier { Earlier n result }
    {
        record::record_at(self.bytes, n)
    }

    /// The kind of record `n`.
    #[inline(always)]
    pub fn kind(&self, n: u16) -> Result<Kind, UnknownKind>
        ensures { result ≡ kind_from (self.now ! n).kind }
    {
        Kind::try_from(record::kind_at(self.bytes, n))
    }

    /// How many records it has.
    pub fn len(&self) -> u16
        ensures value { result ≡ length self.now.records }
        ensures few { result ≤ 1344 }
    {
        self.count
    }

    /// Whether there are wildcard imports.
    pub fn wildcards(&self) -> bool
        ensures { result ≡ self.now.wildcards }
    {
        self.wildcards
    }

    /// What holds of each book that is read.
    pub fn laws(&self)
        ensures { IsRead self.now }
    {
        let _ = &self.count;
    }
}

#[cfg(test)]
mod tests {
    use super::*;
    use record::refusal::Cause;
    use std::test::Fail;

    #[test]
    fn read(rt: HostRuntime) -> Result<(), Fail> {
        // One block with one record, a primitive type, and the block's check behind them.
        let mut bytes = [0u8; BLOCK_BYTES];
        bytes[2] = 1;
        bytes[4] = 1;
        bytes[5] = 1;
        bytes[510] = 0xFD;
        bytes[511] = 0xFE;
        let book = Book::read(&bytes)?;
        assert_eq!(rt; book.len(), 1);
        assert!(rt; !book.wildcards());
        assert_eq!(rt; book.record(0), Record::bare(Kind::Primitive, 1, 0, 0, 0));
        assert_eq!(rt; book.record(1), Record::bare_by_code(0, 0, 0, 0, 0));
        // A byte behind the last record, under its check.
        bytes[30] = 1;
        bytes[510] = 0xFC;
        let refused = Book::read(&bytes).map(|book| book.len());
        assert_eq!(rt;
            refused,
            Err(Refusal {
                cause: Cause::Block,
                place: 0
            })
        );
        Ok(())
    }
}
