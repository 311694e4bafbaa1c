//! Who completed when.

use std::alloc::{AllocError, Global};
use txn_pairs::types::{Status, Txn};

/// How many numbers are no transaction's place although they are listed: the two after all places.
pub const BEYOND: u32 = 2;

/// For the index of each event the place of the ok transaction that it completed, or else a number
/// after all places: the second one where the event is an invocation, and otherwise the first one.
/// An index that journals with so many transactions don't have is left out.
pub fn ends(alloc: Global, txns: &[Txn<'_>]) -> Result<Vec<u32>, AllocError> {
    let nobody = u32::try_from(txns.len()).map_err(|_| AllocError)?;
    let invoked = nobody.checked_add(1).ok_or(AllocError)?;
    let events = txns.len().checked_mul(2).ok_or(AllocError)?;
    let mut ends = vec![in alloc; nobody; events]?;
    for (place, txn) in txns.iter().enumerate() {
        if let Some(end) = ends.get_mut(txn.invocation() as usize) {
            *end = invoked;
        }
        if let (Status::Ok, Some(index)) = (txn.status(), txn.completion()) {
            let place = u32::try_from(place).map_err(|_| AllocError)?;
            if let Some(end) = ends.get_mut(index as usize) {
                *end = place;
            }
        }
    }
    Ok(ends)
}
