//! Where a process may have read an older version than one that it wrote, by one look at each
//! version. Nothing is claimed of it here: the edges are looked up afterwards.

ghost use Rattle.dep_edges.specs.Tables.{IsNumber};

use crate::completions::is_before;
use crate::one_dependency::Ends;
use dep_edges::deps::Deps;
use dep_edges::history::History;
use hist_types::types::Level;
use process_map::map::ProcessMap;
use std::alloc::{AllocError, Global};

/// The last reader of a version in a process.
#[derive(Clone, Copy)]
struct LastReader {
    version: usize,
    place: u32,
}

/// Notes for each process which of its transactions is the last that reads the version.
fn note_readers(
    history: &History<'_, '_>,
    version: usize,
    last: &mut ProcessMap<LastReader>,
) -> Result<(), AllocError>
    requires { IsNumber history.now.table version }
{
    for reader in history.readers(version) {
        let place = *reader;
        let process = history.txn(place as usize).process();
        last.insert(process, LastReader { version, place })?;
    }
    Ok(())
}

/// The last reader of the version in a process, and a follower of the version that the process
/// completed before.
fn stale_reader(
    history: &History<'_, '_>,
    version: usize,
    last: &ProcessMap<LastReader>,
) -> Option<Ends>
    requires { IsNumber history.now.table version }
{
    for follower in history.followers(version) {
        let to = follower.txn as usize;
        let txn = history.txn(to);
        match last.get(txn.process()) {
            Some(reader) if reader.version == version => {
                let from = reader.place as usize;
                if from < history.txns().len()
                    && is_before(Level::Process, txn, history.txn(from))
                {
                    return Some(Ends { from, to });
                }
            }
            _ => {}
        }
    }
    None
}

/// Two transactions of a process of which the second follows a version that the first reads, and
/// completed before the first was invoked, if there are any.
pub(crate) fn in_process(alloc: Global, deps: &Deps<'_, '_>) -> Result<Option<Ends>, AllocError> {
    let history = deps.history();
    let mut last = ProcessMap::new(alloc);
    for version in 0..history.versions() {
        if !history.readers(version).is_empty() && !history.followers(version).is_empty() {
            note_readers(history, version, &mut last)?;
            let found = stale_reader(history, version, &last);
            if found.is_some() {
                return Ok(found);
            }
        }
    }
    Ok(None)
}
