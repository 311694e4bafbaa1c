//! The tokens of a text, with their spans.
#![tactic(auto)]

pub mod ahead;
pub mod laws;
pub mod lexer;
mod pieces;
pub mod runs;
mod scan;
pub mod types;
