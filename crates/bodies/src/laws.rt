//! What is proved of the functions here: each claim is what a function that does nothing ensures.

ghost use Rattle.bodies.specs.Agrees.{ConstantsAsDefined, BodiesAsDefined, LowersAsDefined};
ghost use Rattle.bodies.specs.Whole.{WholeConstraints};

/// Reached constants are lowered as the definitions say.
#[tactic(auto, using(crate::proofs::Agreeing::constants_as_defined))]
pub fn constants_as_defined()
    ensures { ConstantsAsDefined }
{}

/// Bodies are lowered as the definitions say.
#[tactic(auto, using(crate::proofs::Agreeing::bodies_as_defined))]
pub fn bodies_as_defined()
    ensures { BodiesAsDefined }
{}

/// Constants and then bodies are lowered as the definitions say.
pub fn lowers_as_defined()
    ensures { LowersAsDefined }
{}

/// 64 levels are the whole tree of a constraint.
#[tactic(auto, using(crate::proofs::Whole::whole_constraints))]
pub fn whole_constraints()
    ensures { WholeConstraints }
{}
