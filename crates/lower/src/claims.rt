//! What is proved of `lower_book`: each claim is what a function that does nothing ensures.

ghost use Rattle.lower.specs.LowerBook.{lower_book};
ghost use Rattle.lower.specs.Laws.{SlicesAreLeft, RefusedByItsRow, StoppedByItsRow, AcceptedByNone};
ghost use Rattle.lower.specs.Written.{NoStepBeyond, WrittenWithin, NumbersAreCounted};
ghost use Rattle.lower.specs.Written.{ToldAreDiagnostics, ReachedAreWritten, StoredAreCounted};
ghost use Rattle.lower.specs.Told.{ReachedAreTold, StoredAreTold};
ghost use Rattle.lower.specs.Demand3.{Demand3};
ghost use Rattle.lower.specs.Runs.{Demand3OverRuns, RunsLeave, AcceptedHaveRuns};

/// The reply is cause 1 to 8 at a place exactly if the row of the cause holds there, and no row holds before.
#[tactic(auto, using(crate::proofs::Laws::refused_by_its_row))]
pub fn refused_by_its_row()
    ensures { RefusedByItsRow }
{}

/// The reply is cause 9 or 10 exactly if no row of 1 to 8 holds, and the first thing that is over a limit is of that
/// row.
pub fn stopped_by_its_row()
    ensures { StoppedByItsRow }
{}

/// A book is accepted exactly if no row holds.
pub fn accepted_by_none()
    ensures { AcceptedByNone }
{}

/// What is left in the two slices is what the reply says.
#[tactic(auto, using(crate::proofs::Laws::slices_are_left))]
pub fn slices_are_left()
    ensures { SlicesAreLeft }
{}

/// The step that is too deep is the 65th.
#[tactic(auto, using(crate::proofs::Written::no_step_beyond))]
pub fn no_step_beyond()
    ensures { NoStepBeyond }
{}

/// Every record that is written has its fields within their widths.
#[tactic(auto, using(crate::proofs::Written::written_within))]
pub fn written_within()
    ensures { WrittenWithin }
{}

/// The number that would be given next is how many were given.
#[tactic(auto, using(crate::proofs::Written::numbers_are_counted))]
pub fn numbers_are_counted()
    ensures { NumbersAreCounted }
{}

/// Every diagnostic that is told has the form of one.
#[tactic(auto, using(crate::proofs::Written::told_are_diagnostics))]
pub fn told_are_diagnostics()
    ensures { ToldAreDiagnostics }
{}

/// The constants that are written are those that are reached, in their order, each with its mark and value.
#[tactic(auto, using(crate::proofs::Written::reached_are_written))]
pub fn reached_are_written()
    ensures { ReachedAreWritten }
{}

/// Those marked stored are as many as have a value.
#[tactic(auto, using(crate::proofs::Written::stored_are_counted))]
pub fn stored_are_counted()
    ensures { StoredAreCounted }
{}

/// The constants in the result slice are those that are reached, in their order, each with its mark and value.
#[tactic(auto, using(crate::proofs::Told::reached_are_told))]
pub fn reached_are_told()
    ensures { ReachedAreTold }
{}

/// Those marked stored have exactly the names and values that are stored.
pub fn stored_are_told()
    ensures { StoredAreTold }
{}

/// An accepted book stores exactly the constants that it should, none on a ring of references or leading into one; and
/// a book that declares the same constants and more stores them with the same values.
#[tactic(auto, using(crate::proofs::Demand3::demand_3))]
pub fn constants_keep_their_values()
    ensures { Demand3 lower_book }
{}

/// What any run of `lower_book` answered and left, and any two, keep their constants so.
#[tactic(auto, using(crate::proofs::Runs::demand_3_over_runs))]
pub fn runs_keep_their_constants()
    ensures { Demand3OverRuns }
{}

/// What a run of `lower_book` left is what its reply says.
#[tactic(auto, using(crate::proofs::Runs::runs_leave))]
pub fn runs_leave()
    ensures { RunsLeave }
{}

/// Every book that is accepted has a run.
#[tactic(auto, using(crate::proofs::Runs::accepted_have_runs))]
pub fn accepted_have_runs()
    ensures { AcceptedHaveRuns }
{}
