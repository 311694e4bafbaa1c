//! Operations of a text (EDN as Jepsen prints it): reading them, and their canonical text.
#![tactic(auto)]

pub mod atoms;
mod faults;
mod fields;
mod flat;
mod flat_mops;
mod forms;
pub mod laws;
mod maps;
mod marks;
mod members;
mod micro_ops;
mod outline;
mod passing;
pub mod reader;
pub mod types;
pub mod write;
