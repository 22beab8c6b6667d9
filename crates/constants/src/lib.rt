//! The constants of a signal book: which are reached, in which order, and what each is worth.

#![tactic(auto)]

ghost use Rattle.std.specs.Prelude.{◌≡◌, ◌≤◌, ◌+◌, ◌++◌, length, map};
ghost use Rattle.book.specs.Outline.{numbers_of};
ghost use Rattle.constants.specs.Order.{each, outcome};
ghost use Rattle.constants.specs.OfBook.{constants};
ghost use Rattle.constants.specs.Given.{NamesIn, table_in, told, stored_behind};
ghost use Rattle.book.specs.Faults.{is_declaration};

use crate::reached::{Order, Values};
use crate::works::Works;
use book::readable::Book;

pub mod laws;
pub mod reached;
mod tree;
mod works;

/// Evaluates the constants of a book with these declarations, over values of names beforehand. The reached constants
/// come last in the order, each with its value if it has one. Each value is put under its name. Values and order are
/// the caller's, each by itself. Kept apart from what calls it, whose loops over the records of a book have more
/// registers without it.
#[inline(never)]
pub fn evaluate<const N: usize, const R: usize>(
    book: &Book<'_>,
    declarations: &[u16],
    values: &mut Values<N>,
    order: &mut Order<R>,
)
    requires declarations { declarations.now ≡ numbers_of is_declaration book.now }
    requires names { NamesIn book.now N }
    requires room { length order.old + length book.now.records ≤ R }
    ensures order { order.new ≡ order.old ++ map told (outcome each (table_in values.old.values) (constants book.now)) }
    ensures values { values.new.values ≡ stored_behind (outcome each (table_in values.old.values) (constants book.now)) values.old.values }
{
    book.laws();
    let mut works = Works::<N, R>::new();
    works.open_all(book, declarations);
    works.admit_all(book);
    works.settle_all(book, values, order);
}
