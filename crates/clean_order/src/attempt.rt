//! What was tried to order a history's transactions.

use crate::ends::ends;
use crate::propose_schedules::ranks;
use dep_edges::deps::Deps;
use dep_edges::history::History;
use schedules::types::EdgeKinds;
use std::alloc::{AllocError, Global};

/// Who completed when, and ranks for as many transactions as could be put, if that was tried.
/// Nothing is claimed of them.
#[derive(Drop)]
pub struct Attempt {
    ends: Vec<u32>,
    ranks: Vec<u32>,
    /// Up to which rank each comes after what completed before its invocation.
    timely: u32,
}

impl Attempt {
    /// Nothing was tried yet.
    pub fn new(alloc: Global, deps: &Deps<'_, '_>) -> Result<Self, AllocError> {
        Ok(Attempt {
            ends: ends(alloc, deps.history().txns())?,
            ranks: Vec::new(alloc),
            timely: 0,
        })
    }

    pub(crate) fn ends(&self) -> &[u32] {
        &self.ends
    }

    pub(crate) fn ranks(&self) -> &[u32] {
        &self.ranks
    }

    pub(crate) fn timely(&self) -> u32 {
        self.timely
    }

    /// Gives the history's transactions ranks, where all edges count. It is false if one can't be
    /// put.
    pub(crate) fn put(
        &mut self,
        alloc: Global,
        history: &History<'_, '_>,
    ) -> Result<bool, AllocError> {
        let put = ranks(alloc, history, EdgeKinds::ALL, &self.ends)?;
        self.ranks = put.ranks;
        self.timely = put.timely;
        Ok(put.is_all)
    }
}
