//! Searches in directed graphs: ranks that settle most questions about cycles, and a breadth-first
//! search for the rest.
#![tactic(auto)]

pub mod arcs;
pub mod breadth_first;
mod components;
pub mod labels;
pub mod laws;
mod marks;
pub mod ranks;
mod sweeps;
