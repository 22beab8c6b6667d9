//! What is proved of evaluations of constants: each claim is what a function that does nothing ensures, but what a run of
//! `evaluate` leaves.

ghost use Rattle.std.specs.Prelude.{◌≡◌, ◌≤◌, ◌+◌, length};
ghost use Rattle.book.specs.Faults.{is_declaration};
ghost use Rattle.book.specs.Outline.{numbers_of};
ghost use Rattle.constants.specs.Arrays.{AsArrays, EvaluatedAsArrays, Demand3OfRuns};
ghost use Rattle.constants.specs.Demand3.{Demand3};
ghost use Rattle.constants.specs.Evaluations.{EvaluationsStore};
ghost use Rattle.constants.specs.Given.{NamesIn};

use crate::evaluate;
use crate::reached::{Order, Values};
use book::readable::Book;

/// Evaluates the constants of a book. What is left is an evaluation over arrays.
pub(crate) fn evaluate_over_arrays<const N: usize, const R: usize>(
    book: &Book<'_>,
    declarations: &[u16],
    values: &mut Values<N>,
    order: &mut Order<R>,
)
    requires declarations { declarations.now ≡ numbers_of is_declaration book.now }
    requires names { NamesIn book.now N }
    requires room { length order.old + length book.now.records ≤ R }
    ensures { AsArrays book.now values.old.values values.new.values order.old order.new }
{
    evaluate(book, declarations, values, order);
}

/// Whatever keeps the promise of `evaluate` leaves an evaluation over arrays.
pub fn evaluated_as_arrays()
    ensures { EvaluatedAsArrays }
{}

/// Constants keep their values in every evaluation over arrays.
#[tactic(auto, using(crate::proofs::Demand3::demand_3))]
pub fn demand_3()
    ensures { Demand3 }
{}

/// They keep them in every run of `evaluate`, told over arrays.
#[tactic(auto, using(crate::proofs::Arrays::demand_3_of_runs))]
pub fn demand_3_of_runs()
    ensures { Demand3OfRuns }
{}

/// What stands in the order that a run of `evaluate` leaves is what is stored for its book.
#[tactic(auto, using(crate::proofs::Evaluations::evaluations_store))]
pub fn evaluations_store()
    ensures { EvaluationsStore }
{}
