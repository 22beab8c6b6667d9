//! Constants, messages, unions and newtypes of a signal book: their result records and diagnostics.

#![tactic(auto)]

pub mod body;
mod constraint;
mod encoding;
mod item;
pub mod laws;
pub mod reached;
