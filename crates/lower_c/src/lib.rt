//! The lowering of a signal book as a static library: its one export, for a caller in Rust or C.

#![tactic(auto)]

ghost use Rattle.lower.specs.Promise.{Exported};

/// Lowers a book, with the reply in four words.
#[unsafe(no_mangle)]
pub extern "C" fn signal_book_lower(
    book: &[u8],
    results: &mut [u8],
    diagnostics: &mut [u8],
    reply: &mut [u64; 4],
)
    ensures { Exported book.now results.old diagnostics.old reply.new results.new diagnostics.new }
{
    lower::signal_book_lower(book, results, diagnostics, reply)
}
