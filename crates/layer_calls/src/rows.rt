//! Rows of cells that several callers fill, in one thread and in many.

use crate::stopped::Stopped;
use cell_row::known::Known;
use cell_row::row::{Fill, Row};
use std::alloc::{AllocError, Global};
use std::thread;
use std::thread::Threads;

/// How many cells the row has that threads fill.
const CELLS: usize = 10_000;

/// How many threads fill that row.
const THREADS: usize = 8;

/// A block: which caller filled it, and that caller's number for it.
#[derive(Clone, Copy, PartialEq, Eq, PartialOrd, Ord)]
struct Entry {
    filler: usize,
    number: usize,
}

fn boxed(alloc: Global, filler: usize, number: usize) -> Result<Box<Entry>, AllocError> {
    Ok(Box::new(alloc, Entry { filler, number })?)
}

/// What a fill returned.
fn name(fill: &Fill<'_, Entry>) -> &'static str {
    match fill {
        Fill::Mine(_) => "mine",
        Fill::Found(_) => "found",
        Fill::Memory => "memory",
        Fill::Full => "full",
    }
}

/// Two callers fill a row of two cells.
fn fill_two<R: Print>(rt: &R, alloc: Global) -> Result<(), Stopped> {
    let row = Row::new(alloc, 2)?;
    let (mut first, mut second) = (row.known(alloc)?, row.known(alloc)?);
    rt.println(name(&row.fill(&mut first, || boxed(alloc, 1, 0))))?;
    println!(rt; "{:?}", row.meet(&first, &second))?;
    rt.println(name(&row.fill(&mut second, || boxed(alloc, 2, 0))))?;
    rt.println(name(&row.fill(&mut second, || boxed(alloc, 2, 0))))?;
    let looked = row.look(&mut first).map(|entry| entry.filler);
    rt.println(name(&row.fill(&mut first, || boxed(alloc, 1, 1))))?;
    let again = row.again(alloc, &second)?;
    let order = row.meet(&first, &again);
    println!(rt; "looked {looked:?}, {order:?}, {} blocks", again.len())?;
    Ok(())
}

/// Fills the row until it is full, and lists what it then knows.
fn fill_up(alloc: Global, row: &Row<Entry>, filler: usize) -> Result<Vec<Entry>, AllocError> {
    let mut known = row.known(alloc)?;
    let mut entries = Vec::new(alloc);
    for number in 0..row.len() {
        match row.fill(&mut known, || boxed(alloc, filler, number)) {
            Fill::Mine(entry) | Fill::Found(entry) => entries.push(*entry)?,
            Fill::Memory => return Err(AllocError),
            Fill::Full => break,
        }
    }
    Ok(entries)
}

/// Threads fill one row. Prints how many blocks there are, how many different ones, and how many
/// threads know these.
fn fill_by_all<R: Print + Threads + Sync>(rt: &R, alloc: Global) -> Result<(), Stopped> {
    let row = Row::new(alloc, CELLS)?;
    let shared = &row;
    let lists = thread::map_indices(rt, alloc, THREADS, &|filler| fill_up(alloc, shared, filler))?;
    let mut entries = fill_up(alloc, &row, THREADS)?;
    let mut agreeing = 0usize;
    for list in lists {
        if list? == entries {
            agreeing = agreeing.saturating_add(1);
        }
    }
    println!(rt; "blocks {}, known to {agreeing} threads", entries.len())?;
    entries.sort()?;
    entries.dedup();
    println!(rt; "different blocks {}", entries.len())?;
    Ok(())
}

/// Callers fill rows, and what they find is printed.
pub fn run<R: Print + Threads + Sync>(rt: &R, alloc: Global) -> Result<(), Stopped> {
    fill_two(rt, alloc)?;
    fill_by_all(rt, alloc)
}
