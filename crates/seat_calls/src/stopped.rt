//! Why the program stops.

use hist_types::types::Fault;
use std::alloc::{AllocError, AllocFailed};
use std::io;
use thiserror::Error;

#[derive(Debug, Drop, Error)]
pub enum Stopped {
    #[error("usage: the words that src/main.rt tells of")]
    Usage,
    #[error("a line that asks for nothing")]
    BadLine,
    #[error("{0}")]
    Refused(Fault),
    #[error("{0}")]
    Device(#[from] io::Error),
}

impl From<Fault> for Stopped {
    fn from(fault: Fault) -> Stopped {
        Stopped::Refused(fault)
    }
}

impl From<AllocError> for Stopped {
    fn from(error: AllocError) -> Stopped {
        Stopped::Refused(Fault::from(error))
    }
}

impl<T: Drop> From<AllocFailed<T>> for Stopped {
    fn from(error: AllocFailed<T>) -> Stopped {
        Stopped::Refused(Fault::from(error))
    }
}
