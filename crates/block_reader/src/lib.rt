//! The operations of a text in blocks, and the one block that a write hands over to a journal.
#![tactic(auto)]

pub mod alone;
mod blocks;
pub mod one_block;
pub mod parts;
mod rest;
pub mod round;
pub mod rounds;
pub mod starts;
pub mod window;
