//! Schedules, which give each transaction a start and a commit, and which cycles a schedule rules
//! out.
#![tactic(auto)]

pub mod laws;
pub mod types;
