//! Items grouped by number, side by side in one vector (compressed sparse rows).
#![tactic(auto)]

pub mod groups;
