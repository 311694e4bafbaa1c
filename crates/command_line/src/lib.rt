//! The command line: what its words ask for, or the text that they get.
#![tactic(auto)]

pub mod laws;
pub mod types;
pub mod words;
