//! Reads of what should not have been seen.

ghost use Rattle.std.specs.Prelude.{◌≡◌, OnOk, IfOk, vec_len};
ghost use Rattle.hist_types.specs.Phenomena.{first_of, g1a, g1b, stray};
ghost use Rattle.dep_edges.specs.Tables.{IsPlace, txn_at};
ghost use Rattle.dep_edges.specs.Possible.{RulesOutReads};
ghost use Rattle.dep_edges.specs.Reads.{aborted_in, intermediate_in, AddsStraysAt};

use crate::history::History;
use crate::nodes::is_failed;
use crate::possible::Possible;
use crate::types::BadRead;
use std::alloc::{AllocError, Global};

/// The first read of the transaction at this index that returned what a failed one wrote.
fn aborted_read<'a>(history: &History<'_, 'a>, place: usize) -> Option<BadRead<'a>>
    requires { IsPlace history.now.txns place }
    ensures { result ≡ first_of (aborted_in history.now.txns (txn_at history.now.txns place)) }
{
    let reader = history.txn(place).invocation();
    for number in history.reads(place) {
        let number = *number as usize;
        if let Some(written) = history.writer(number) {
            let writer = history.txn(written.txn as usize);
            if is_failed(writer) {
                return Some(BadRead::new(reader, history.version(number), writer.invocation()));
            }
        }
    }
    None
}

/// The first read of the transaction at this index that returned what another one wrote over.
fn intermediate_read<'a>(history: &History<'_, 'a>, place: usize) -> Option<BadRead<'a>>
    requires { IsPlace history.now.txns place }
    ensures { result ≡ first_of (intermediate_in history.now.txns (txn_at history.now.txns place)) }
{
    let reader = history.txn(place).invocation();
    for number in history.reads(place) {
        let number = *number as usize;
        if let Some(written) = history.writer(number) {
            let writer = history.txn(written.txn as usize).invocation();
            if written.over && writer != reader {
                return Some(BadRead::new(reader, history.version(number), writer));
            }
        }
    }
    None
}

/// The first aborted read of the history.
pub fn first_aborted<'a>(history: &History<'_, 'a>, possible: Possible) -> Option<BadRead<'a>>
    requires { RulesOutReads history.now.txns possible }
    ensures { result ≡ g1a history.now.txns }
{
    if !possible.aborted {
        return None;
    }
    for place in 0..history.txns().len() {
        if let Some(read) = aborted_read(history, place) {
            return Some(read);
        }
    }
    None
}

/// The first intermediate read of the history.
pub fn first_intermediate<'a>(history: &History<'_, 'a>, possible: Possible) -> Option<BadRead<'a>>
    requires { RulesOutReads history.now.txns possible }
    ensures { result ≡ g1b history.now.txns }
{
    if !possible.intermediate {
        return None;
    }
    for place in 0..history.txns().len() {
        if let Some(read) = intermediate_read(history, place) {
            return Some(read);
        }
    }
    None
}

/// Adds the versions of the transaction's reads that nobody wrote.
fn add_strays(
    history: &History<'_, '_>,
    place: usize,
    strays: &mut Vec<u32>,
) -> Result<(), AllocError>
    requires { IsPlace history.now.txns place }
    ensures { OnOk result (AddsStraysAt history.now place strays.old.items strays.new.items) }
{
    for number in history.reads(place) {
        if history.is_stray(*number as usize) {
            strays.push(*number)?;
        }
    }
    Ok(())
}

/// The versions of the stray reads, read by read.
pub fn strays(
    alloc: Global,
    history: &History<'_, '_>,
    possible: Possible,
) -> Result<Vec<u32>, AllocError>
    requires { RulesOutReads history.now.txns possible }
    ensures { IfOk result (λ strays. vec_len strays ≡ stray history.now.txns) }
{
    let mut strays = Vec::new(alloc);
    if !possible.stray {
        return Ok(strays);
    }
    for place in 0..history.txns().len() {
        add_strays(history, place, &mut strays)?;
    }
    Ok(strays)
}
