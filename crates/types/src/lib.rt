//! Types of a signal book: their numbers, plain aliases, and the two resolvers.

#![tactic(auto)]

pub mod aliases;
pub mod diagnostic;
pub mod laws;
pub mod lowering;
pub mod names;
pub mod registry;
pub mod resolver;
pub mod room;
pub mod spot;

/// The most results that are written.
pub const MOST_RESULTS: u16 = 2048;

/// The most diagnostics that are told.
pub const MOST_DIAGNOSTICS: u16 = 256;

/// The number of a type that could not be resolved. No name has it. It is written into records, so it is a number like
/// any other type's.
pub const POISON_TYPE_ID: u32 = 4_294_967_295;

/// Counters of numbers, results and diagnostics.
#[derive(Clone, Copy, Debug, Default, PartialEq, Eq, Hash)]
pub struct LowerCtx {
    pub next: u32,
    pub results: u16,
    pub diagnostics: u16,
}
