//! The arcs of dependencies, laid out vertex by vertex.

ghost use Rattle.std.specs.Prelude.{◌≡◌, ◌++◌, IfOk, OnOk};
ghost use Rattle.dep_edges.specs.Tables.{IsPlace, IsNumber};
ghost use Rattle.edge_graph.specs.LaidOut.{others, nodes_of, readers_behind, writers_behind, AreRows, AddsReads, AddsTxnRow};

use crate::rows::{Rows, number};
use dep_edges::deps::Deps;
use dep_edges::history::History;
use std::alloc::{AllocError, Global};

/// A history and what its transactions depend on each other for.
#[derive(Drop)]
struct Layout<'g, 'v, 'a> {
    deps: &'g Deps<'v, 'a>,
    history: &'g History<'v, 'a>,
    ghost of_one: { history.now.txns ≡ deps.now.txns },
}

/// Where the parts of a transaction's row end in a list.
#[derive(Clone, Copy, Drop)]
struct Ends {
    pub rw: u32,
    pub wr: u32,
    pub ww: u32,
}

/// Appends the indexes except one.
fn push_others(places: &[u32], place: usize, out: &mut Vec<u32>) -> Result<(), AllocError>
    ensures { OnOk result (out.new.items ≡ out.old.items ++ others places.now place) }
{
    for other in places {
        if *other as usize != place {
            out.push(*other)?;
        }
    }
    Ok(())
}

impl<'g, 'v, 'a> Layout<'g, 'v, 'a> {
    /// Adds the vertices of the versions that the transaction reads.
    fn push_read(&self, place: usize, out: &mut Vec<u32>) -> Result<(), AllocError>
        requires { IsPlace self.now.history.now.txns place }
        ensures { OnOk result (AddsReads self.now.history.now place out.old.items out.new.items) }
    {
        let first = self.history.txns().len();
        for version in self.history.reads(place) {
            let vertex = number(first + *version as usize)?;
            out.push(vertex)?;
        }
        Ok(())
    }

    /// Adds the other transactions that read what the transaction installs.
    fn push_readers(&self, place: usize, out: &mut Vec<u32>) -> Result<(), AllocError>
        requires { IsPlace self.now.history.now.txns place }
        ensures { OnOk result
            (out.new.items ≡ out.old.items ++ readers_behind self.now.history.now.txns place) }
    {
        for version in self.history.installs(place) {
            push_others(self.history.readers(*version as usize), place, out)?;
        }
        Ok(())
    }

    /// Adds the nodes that install a version after this one.
    fn push_nodes_behind(&self, version: usize, out: &mut Vec<u32>) -> Result<(), AllocError>
        requires { IsNumber self.now.history.now.table version }
        ensures { OnOk result
            (out.new.items ≡ out.old.items ++ nodes_of self.now.history.now version) }
    {
        for follower in self.history.followers(version) {
            if self.deps.is_node(follower.txn as usize) {
                out.push(follower.txn)?;
            }
        }
        Ok(())
    }

    /// Adds the nodes that install a version after one which the transaction installs.
    fn push_writers(&self, place: usize, out: &mut Vec<u32>) -> Result<(), AllocError>
        requires { IsPlace self.now.history.now.txns place }
        ensures { OnOk result
            (out.new.items ≡ out.old.items ++ writers_behind self.now.history.now.table.keys
            self.now.history.now.txns place) }
    {
        for version in self.history.installs(place) {
            self.push_nodes_behind(*version as usize, out)?;
        }
        Ok(())
    }

    /// Adds what the transaction leads to, and returns where its parts end.
    fn push_txn(&self, place: usize, items: &mut Vec<u32>) -> Result<Ends, AllocError>
        requires { IsPlace self.now.history.now.txns place }
        ensures { IfOk result
            (AddsTxnRow self.now.history.now place items.old.items items.new.items) }
    {
        self.push_read(place, items)?;
        let rw = number(items.len())?;
        if !self.deps.is_node(place) {
            return Ok(Ends { rw, wr: rw, ww: rw });
        }
        self.push_readers(place, items)?;
        let wr = number(items.len())?;
        self.push_writers(place, items)?;
        let ww = number(items.len())?;
        Ok(Ends { rw, wr, ww })
    }

    /// A row for each transaction, and after them one for each version.
    fn rows(&self, alloc: Global) -> Result<Rows, AllocError>
        ensures { IfOk result (AreRows self.now.history.now.txns self.now.history.now.table) }
    {
        let txns = self.history.txns().len();
        let versions = self.history.versions();
        let parts = txns.saturating_mul(3).saturating_add(versions);
        let mut bounds = Vec::with_capacity(alloc, parts.saturating_add(1))?;
        let mut items = Vec::with_capacity(alloc, parts)?;
        bounds.push(0)?;
        for place in 0..txns {
            let ends = self.push_txn(place, &mut items)?;
            bounds.push(ends.rw)?;
            bounds.push(ends.wr)?;
            bounds.push(ends.ww)?;
        }
        for version in 0..versions {
            self.push_nodes_behind(version, &mut items)?;
            bounds.push(number(items.len())?)?;
        }
        Ok(Rows::new(txns, versions, bounds, items))
    }
}

/// A row for each transaction, and after them one for each version.
pub fn rows<'v, 'a>(
    alloc: Global,
    deps: &Deps<'v, 'a>,
    history: &History<'v, 'a>,
) -> Result<Rows, AllocError>
    requires { history.now.txns ≡ deps.now.txns }
    ensures { IfOk result (AreRows history.now.txns history.now.table) }
{
    Layout { deps, history }.rows(alloc)
}
