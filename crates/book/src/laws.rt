//! What is proved of the definitions here: each claim is what a function that does nothing ensures.

ghost use Rattle.book.specs.Answer.{ReadingTells};
ghost use Rattle.book.specs.Accepted.{ReadsAsAnswered};

/// Bytes are read as a book exactly if they are answered for as accepted, and else turned back as the answer says.
#[tactic(auto, using(crate::proofs::Answers::reads_as_answered))]
pub fn reads_as_answered()
    ensures { ReadsAsAnswered }
{}

/// What `read_book` hands out tells the answer.
#[tactic(auto, using(crate::proofs::Answers::reading_tells))]
pub fn reading_tells()
    ensures { ReadingTells }
{}
