//! Numbers for the keys and values of a history, in the order in which they are first seen.
#![tactic(auto)]

pub mod atoms;
mod crowds;
mod number_map;
mod pair_slots;
pub mod pairs;
mod slots;
mod sorted_map;
mod table;
