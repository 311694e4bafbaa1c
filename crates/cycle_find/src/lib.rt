//! Searches for the closed walks of phenomena.
#![tactic(auto)]

mod completions;
mod fewest;
mod finder;
mod kinds;
mod leading;
mod one_dependency;
pub mod ranked_graph;
pub mod ranked_level;
mod ranking;
mod ranks_past;
mod settle;
mod sharing;
pub mod single;
mod single_ends;
pub mod two_dependencies;
pub mod types;
