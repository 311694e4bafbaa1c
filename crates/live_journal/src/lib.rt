//! The live journal: a row of cells that many seats write to and read from, where no call waits for
//! another.
#![tactic(auto)]

pub mod cells;
pub mod journal;
mod kept;
pub mod laws;
pub mod seat;
pub mod seen;
pub mod snapshot;
