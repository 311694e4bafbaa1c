//! The graph of a history's transactions: its edges by kind, and the arcs that searches for cycles
//! go over.
#![tactic(auto)]

pub mod arcs;
pub mod graph;
pub mod laws;
mod layout;
mod orders;
mod rows;
mod runs;
pub mod types;
