// The reading of a signal book as a static library: its one export, for a caller in Rust or C.

#![tactic(auto)]

ghost use Rattle.std.specs.Prelude.{◌≡◌};
ghost use Rattle.book.specs.Answer.{read_book, refusal_word};

// Reads a book: 0 where it is accepted, else the number of the cause times 65,536, and the place.
#[unsafe(no_mangle)]
pub extern "C" fn book_refusal(book: &[u8]) -> u32
    ensures { result ≡ refusal_word (read_book book.now) }
{
    book::book_refusal(book)
}
