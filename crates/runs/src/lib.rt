//! Known answers: what lowering gives for given books, computed from the definitions.

#![tactic(auto)]

pub mod claims;
