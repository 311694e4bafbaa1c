//! Sessions: a client writes lines, and reads a reply to each.
#![tactic(auto)]

pub mod clients;
pub mod laws;
pub mod lines;
mod replies;
mod sayings;
pub mod session;
