//! What is proved of what is found of an answer: each claim is what a function that does nothing ensures.

ghost use Rattle.replay.specs.Finding.{RightIfLowered};
ghost use Rattle.replay.specs.Said.{AgreesIfEqual};

/// An answer is right exactly if it has its form, and lowering its book gives what it says.
pub fn right_if_lowered()
    ensures { RightIfLowered }
{}

/// Outcomes that are told to be the same are equal, and the other way round.
pub fn agrees_if_equal()
    ensures { AgreesIfEqual }
{}
