//! What lowering gives for given books: each claim is what a function that does nothing ensures.

ghost use Rattle.runs.specs.Known.{KnownAnswers};
ghost use Rattle.runs.specs.Reading.{KnownAreRead};
ghost use Rattle.runs.specs.Slips.{AnswersBeside, NoSlip};
ghost use Rattle.runs.specs.Edges.{EdgesAnswered};
ghost use Rattle.runs.specs.Refused.{RefusedBooks};
ghost use Rattle.runs.specs.Demand3.{StoringNothingFails, SettlingTheFirstFails, StoringSquaresFails};
ghost use Rattle.runs.specs.Demand3.{WrongOnesFailKept, Instances};
ghost use Rattle.runs.specs.Lent.{LentRuns};

/// Twelve books are lowered as they should be, record for record.
#[tactic(auto, using(crate::proofs::Known::known_answers))]
pub fn known_answers()
    ensures { KnownAnswers }
{}

/// Reading accepts the twelve books.
#[tactic(auto, using(crate::proofs::Reading::known_are_read))]
pub fn known_are_read()
    ensures { KnownAreRead }
{}

/// What lowering gives for books beside them.
#[tactic(auto, using(crate::proofs::Slips::answers_beside))]
pub fn answers_beside()
    ensures { AnswersBeside }
{}

/// What lowering gives for some books is not what some slips would give.
#[tactic(auto, using(crate::proofs::Slips::no_slip))]
pub fn no_slip()
    ensures { NoSlip }
{}

/// Books at the edges of the rules are lowered as they should be.
#[tactic(auto, using(crate::proofs::Edges::edges_answered))]
pub fn edges_answered()
    ensures { EdgesAnswered }
{}

/// Books are turned back for each cause, and others beside them are not.
#[tactic(auto, using(crate::proofs::Refused::refused_books))]
pub fn refused_books()
    ensures { RefusedBooks }
{}

/// A lowering that stores nothing does not store what it should.
#[tactic(auto, using(crate::proofs::Demand3::storing_nothing_fails))]
pub fn storing_nothing_fails()
    ensures { StoringNothingFails }
{}

/// A lowering that settles the first constant alone does not store what it should.
#[tactic(auto, using(crate::proofs::Demand3::settling_the_first_fails))]
pub fn settling_the_first_fails()
    ensures { SettlingTheFirstFails }
{}

/// A lowering that evaluates a name that is used twice does not store what it should.
#[tactic(auto, using(crate::proofs::Demand3::storing_squares_fails))]
pub fn storing_squares_fails()
    ensures { StoringSquaresFails }
{}

/// Those three do not keep the values of constants where a book has more of them.
#[tactic(auto, using(crate::proofs::Demand3::wrong_ones_fail_kept))]
pub fn wrong_ones_fail_kept()
    ensures { WrongOnesFailKept }
{}

/// Books to which the claims on constants apply.
#[tactic(auto, using(crate::proofs::Demand3::instances))]
pub fn instances()
    ensures { Instances }
{}

/// What `lower_lent` gives and leaves for some books.
#[tactic(auto, using(crate::proofs::Lent::lent_runs))]
pub fn lent_runs()
    ensures { LentRuns }
{}
