//! The words that the whole checker speaks: kinds of operations, refusals and their places, limits,
//! and the devices that bytes come from and go to.
#![tactic(auto)]

pub mod device;
pub mod laws;
pub mod limits;
pub mod types;
pub mod whole;
