//! What a command does, from a source's bytes to a sink's.
#![tactic(auto)]

pub mod answer;
mod check;
pub mod dispatch;
mod edges;
mod judged;
mod judging;
pub mod laws;
mod reads;
pub mod run;
mod tabling;
