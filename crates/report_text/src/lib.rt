//! Reports of a history, and their texts. Each line of a report is written here, and nowhere else.
//!
//! A report is a value, and its text a function of it.
#![tactic(auto)]

mod leaving;
mod lines;
pub mod report;
pub mod short;
pub mod text;
