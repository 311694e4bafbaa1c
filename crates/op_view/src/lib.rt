//! Borrowed views of operations.
#![tactic(auto)]

pub mod atom;
mod content;
pub mod mops;
pub mod op;
mod spelling;
