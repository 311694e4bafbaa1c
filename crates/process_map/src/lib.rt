//! A map from the numbers of processes, which are mostly small.
#![tactic(auto)]

pub mod map;
