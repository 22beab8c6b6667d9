//! Reading a signal book: the first of causes 1 to 8 that turns it back, or none.

#![tactic(auto)]

ghost use Rattle.std.specs.Prelude.{◌≡◌};
ghost use Rattle.book.specs.Answer.{read_book, reading_of, refusal_word};

mod blocks;
pub mod by_name;
mod children;
mod follow;
mod follow_table;
pub mod laws;
mod names;
pub mod outline;
pub mod readable;
mod scan;
mod shape;

pub use readable::Book;
use record::refusal::Cause;

/// A book has at most so many blocks.
pub const BLOCKS: usize = 64;

/// A book has at most so many records.
pub const RECORDS: usize = 1344;

/// Names are numbers below this.
pub const NAMES: usize = 4096;

/// What reading a book gives: how many records it has and whether there are wildcard imports; or why and where it is
/// turned back. It borrows nothing of the bytes.
#[derive(Clone, Copy, Debug, PartialEq, Eq, Hash)]
pub enum Reading {
    Accepted { records: u16, wildcards: bool },
    Refused { cause: Cause, place: u16 },
}

/// Reads a book: any bytes at all.
pub fn read_book(book: &[u8]) -> Reading
    ensures { result ≡ reading_of (read_book book.now) }
{
    match Book::read(book) {
        Ok(book) => Reading::Accepted {
            records: book.len(),
            wildcards: book.wildcards(),
        },
        Err(refusal) => Reading::Refused {
            cause: refusal.cause,
            place: refusal.place,
        },
    }
}

/// Reads a book for a caller in Rust or C: 0 where it is accepted, else the number of the cause times 65,536, and the
/// place. `book_c` exports it.
pub fn book_refusal(book: &[u8]) -> u32
    ensures { result ≡ refusal_word (read_book book.now) }
{
    match Book::read(book) {
        Ok(_) => 0,
        Err(refusal) => 0x1_0000 * u32::from(refusal.cause.number()) + u32::from(refusal.place),
    }
}
