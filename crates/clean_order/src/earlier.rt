//! Which versions come before a version, although whoever installs it need not have read them.

use dep_edges::history::History;
use hist_types::types::KeyOrder;
use std::alloc::{AllocError, Global};
use txn_pairs::types::Status;

/// No link's number.
const NONE: u32 = u32::MAX;

/// A version, and the number of the link with the next one.
#[derive(Clone, Copy)]
pub struct Link {
    pub version: u32,
    pub next: u32,
}

/// For each version such ones, in a linked list.
#[derive(Drop)]
pub struct Earlier {
    /// The number of the first link of each version.
    firsts: Vec<u32>,
    links: Vec<Link>,
}

/// Whether what follows the version may be installed by others than its readers, as where it is
/// nil, and where keys are sequential, or by several, of which each reads it. These have no order,
/// unless their starts and their commits are put apart.
pub fn leads_on(history: &History<'_, '_>, apart: bool, number: usize) -> bool {
    if history.keys() == KeyOrder::Sequential {
        return true;
    }
    if number >= history.versions() {
        return false;
    }
    history.version(number).value().is_none() || (apart && history.followers(number).len() > 1)
}

/// The index of the event that completed the transaction at the place, if it is ok, and else one
/// that no event has.
fn end_of(history: &History<'_, '_>, place: u32) -> u64 {
    let place = place as usize;
    if place >= history.txns().len() {
        return u64::MAX;
    }
    let txn = history.txn(place);
    match (txn.status(), txn.completion()) {
        (Status::Ok, Some(index)) => index,
        _ => u64::MAX,
    }
}

/// The index of the event with which all that wrote or read the version had completed. It may be
/// one that no event has.
fn last_end(history: &History<'_, '_>, number: usize) -> u64 {
    if number >= history.versions() {
        return 0;
    }
    let mut last = match history.writer(number) {
        None => 0,
        Some(writer) => end_of(history, writer.txn),
    };
    for reader in history.readers(number) {
        last = last.max(end_of(history, *reader));
    }
    last
}

/// Whether the transaction at the place was invoked after the event with this index.
fn is_invoked_after(history: &History<'_, '_>, place: u32, index: u64) -> bool {
    let place = place as usize;
    place < history.txns().len() && history.txn(place).invocation() > index
}

impl Earlier {
    /// A transaction that was invoked after all that wrote or read a version had completed is put
    /// after them in any case, so what it installs needs no link.
    pub fn of(alloc: Global, history: &History<'_, '_>, apart: bool) -> Result<Self, AllocError> {
        let mut earlier = Earlier {
            firsts: vec![in alloc; NONE; history.versions()]?,
            links: Vec::with_capacity(alloc, history.txns().len())?,
        };
        for number in 0..history.versions() {
            if leads_on(history, apart, number) {
                earlier.add_followers(history, number)?;
            }
        }
        Ok(earlier)
    }

    /// Adds the version to those of each one that follows it, and that needs a link. Followers come
    /// in the order of their places.
    fn add_followers(
        &mut self,
        history: &History<'_, '_>,
        number: usize,
    ) -> Result<(), AllocError> {
        if number >= history.versions() {
            return Ok(());
        }
        let version = u32::try_from(number).map_err(|_| AllocError)?;
        let followers = history.followers(number);
        if followers.is_empty() {
            return Ok(());
        }
        let last = last_end(history, number);
        for follower in followers {
            if is_invoked_after(history, follower.txn, last) {
                break;
            }
            let link = u32::try_from(self.links.len()).map_err(|_| AllocError)?;
            if let Some(first) = self.firsts.get_mut(follower.version as usize) {
                self.links.push(Link {
                    version,
                    next: *first,
                })?;
                *first = link;
            }
        }
        Ok(())
    }

    /// The number of the first link of a version.
    pub fn first(&self, version: usize) -> u32 {
        self.firsts.get(version).copied().unwrap_or(NONE)
    }

    /// The link with this number, if there is one.
    pub fn link(&self, number: u32) -> Option<Link> {
        self.links.get(number as usize).copied()
    }
}
