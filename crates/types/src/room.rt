//! Names that the tables by name have an entry for: those of declarations, and those of types that are names.

ghost use Rattle.std.specs.Prelude.{◌≡◌};
ghost use Rattle.types.specs.Below.{names_below};
ghost use Rattle.types.specs.Over.{has_entry, is_over, any_over};

use book::Book;
use record::kind::{Kind, UnknownKind};

// Whether the tables have an entry for the name of a record of this kind.
fn has_entry(kind: Result<Kind, UnknownKind>) -> bool
    ensures { result ≡ has_entry kind }
{
    kind.is_ok_and(|kind| kind == Kind::Named || kind.is_declaration())
}

// Whether record `m` has such a name, and it is not below `n`.
#[tactic(auto, unfolding(crate::specs::Over::is_over))]
fn is_over(book: &Book<'_>, m: u16, n: usize) -> bool
    ensures { result ≡ is_over n book.now m }
{
    has_entry(book.kind(m)) && n <= usize::from(book.record(m).a)
}

// Whether one of the first `count` records has such a name that is not below `n`.
fn any_over(book: &Book<'_>, count: u16, n: usize) -> bool
    ensures { result ≡ any_over n book.now count }
{
    (0..count).any(|m| is_over(book, m, n))
}

/// Whether the names that the tables by name have an entry for are below `n`.
pub fn names_below(book: &Book<'_>, n: usize) -> bool
    ensures { result ≡ names_below n book.now.records }
{
    !any_over(book, book.len(), n)
}
