//! What is proved of the functions here: each claim is what a function that does nothing ensures.

ghost use Rattle.types.specs.Agrees.{RegistersAsDefined, BeginsAsDefined, EmitsAsDefined, TellsAsDefined};
ghost use Rattle.types.specs.Agrees.{PoisonsAsDefined, StubsAsDefined, PairsAsDefined, NamesAsDefined};
ghost use Rattle.types.specs.Agrees.{QualifiedAsDefined, WalksAsDefined, WalksInsideAsDefined, ResolvesAsDefined};
ghost use Rattle.types.specs.Agrees.{AliasesAsDefined};
ghost use Rattle.types.specs.Records.{TypeHasRecords, CopyIsShifted};
ghost use Rattle.types.specs.Rooted.{ResolvedIsWritten, ResolvedStands};

/// The declarations of a book are registered as the definitions say.
pub fn registers_as_defined()
    ensures { RegistersAsDefined }
{}

/// A lowering begins where the definitions begin.
#[tactic(auto, using(crate::proofs::Agreeing::begins_as_defined))]
pub fn begins_as_defined()
    ensures { BeginsAsDefined }
{}

/// A result is written as the definitions say.
#[tactic(auto, using(crate::proofs::Agreeing::emits_as_defined))]
pub fn emits_as_defined()
    ensures { EmitsAsDefined }
{}

/// A diagnostic is told as the definitions say.
#[tactic(auto, using(crate::proofs::Agreeing::tells_as_defined))]
pub fn tells_as_defined()
    ensures { TellsAsDefined }
{}

/// A message is told, and poison is written, as the definitions say.
#[tactic(auto, using(crate::proofs::Agreeing::poisons_as_defined))]
pub fn poisons_as_defined()
    ensures { PoisonsAsDefined }
{}

/// A name gets a stub as the definitions say.
#[tactic(auto, using(crate::proofs::Agreeing::stubs_as_defined))]
pub fn stubs_as_defined()
    ensures { StubsAsDefined }
{}

/// A qualified name gets a stub as the definitions say.
#[tactic(auto, using(crate::proofs::Agreeing::pairs_as_defined))]
pub fn pairs_as_defined()
    ensures { PairsAsDefined }
{}

/// A name is resolved as the definitions say.
#[tactic(auto, using(crate::proofs::Agreeing::names_as_defined))]
pub fn names_as_defined()
    ensures { NamesAsDefined }
{}

/// A qualified name is resolved as the definitions say.
#[tactic(auto, using(crate::proofs::Agreeing::qualified_as_defined))]
pub fn qualified_as_defined()
    ensures { QualifiedAsDefined }
{}

/// The first resolver does what the first resolver of the definitions does.
#[tactic(auto, using(crate::proofs::Agreeing::walks_as_defined))]
pub fn walks_as_defined()
    ensures { WalksAsDefined }
{}

/// The second resolver does what the second resolver of the definitions does.
#[tactic(auto, using(crate::proofs::Agreeing::walks_inside_as_defined))]
pub fn walks_inside_as_defined()
    ensures { WalksInsideAsDefined }
{}

/// The type of a declaration or an item is resolved as the definitions say.
#[tactic(auto, using(crate::proofs::Agreeing::resolves_as_defined))]
pub fn resolves_as_defined()
    ensures { ResolvesAsDefined }
{}

/// Plain aliases are lowered as the definitions say.
#[tactic(auto, using(crate::proofs::Agreeing::aliases_as_defined))]
pub fn aliases_as_defined()
    ensures { AliasesAsDefined }
{}

/// Whatever has resolved a type has written its records and no others, the root last.
#[tactic(auto, using(crate::proofs::Rooting::resolved_written))]
pub fn resolved_is_written()
    ensures { ResolvedIsWritten }
{}

/// Whatever has resolved a type has its records in one row up to its root.
#[tactic(auto, using(crate::proofs::Rooting::resolved_stands))]
pub fn resolved_stands()
    ensures { ResolvedStands }
{}

/// A type has one result record more than stand before its root.
#[tactic(auto, using(crate::proofs::TypeRecords::type_has_records))]
pub fn type_has_records()
    ensures { TypeHasRecords }
{}

/// A copy of a type is its records, with their references moved along.
#[tactic(auto, using(crate::proofs::TypeRecords::copy_is_shifted))]
pub fn copy_is_shifted()
    ensures { CopyIsShifted }
{}
