//! What the transactions of a history depend on each other for.

ghost use Rattle.std.specs.Prelude.{◌≡◌, ◌==◌, map, vec_len, IfOk, OnOk, OnErr};
ghost use Rattle.std.specs.List.{list_any};
ghost use Rattle.hist_types.specs.Phenomena.{g1a, g1b, stray};
ghost use Rattle.hist_types.specs.Transactions.{is_node};
ghost use Rattle.key_versions.specs.Tables.{IsTableOf};
ghost use Rattle.dep_edges.specs.Added.{Gains, edge_at, wr_edges, ww_edges, rw_edges, edges_of_installs, edges_of_reads, edges_at};
ghost use Rattle.dep_edges.specs.Histories.{AreOfHistory};
ghost use Rattle.dep_edges.specs.OutEdges.{AddsEdgesFrom, Begins};
ghost use Rattle.dep_edges.specs.Pieces.{ArePiecesOf};
ghost use Rattle.dep_edges.specs.Possible.{RulesOutReads};
ghost use Rattle.dep_edges.specs.Tables.{IsPlace, IsNumber, IsWritten, txn_at};

use crate::bad_reads::{first_aborted, first_intermediate, strays};
use crate::edge::{Edge, Label};
use crate::history::History;
use crate::nodes::nodes;
use crate::pieces::{PieceDeps, whole};
use crate::possible::{Possible, possible_in};
use crate::types::BadRead;
use key_versions::table::Versions;
use std::alloc::{AllocError, Global};
use std::marker::Model;
use txn_pairs::types::Txns;

/// The transactions of a history with the dependency edges between them. A transaction goes by
/// `place`, its index in the history. It borrows the transactions and the table of their versions,
/// which contracts see.
#[derive(Drop)]
pub struct Deps<'v, 'a> {
    history: History<'v, 'a>,
    /// Whether each transaction is a node, by its index.
    nodes: Vec<bool>,
    possible: Possible,
    /// The versions of the stray reads, by number.
    strays: Vec<u32>,
}

impl<'v, 'a> Model for Deps<'v, 'a> {
    ghost use Rattle.std.specs.Prelude.{◌≡◌, map, vec_len};
    ghost use Rattle.hist_types.specs.Phenomena.{stray};
    ghost use Rattle.hist_types.specs.Transactions.{is_node};
    ghost use Rattle.dep_edges.specs.Histories.{History as AHistory, IsHistory};
    ghost use Rattle.dep_edges.specs.Possible.{RulesOutReads};

    ghost Value = { AHistory };

    ghost view = { λ d. d.history };

    ghost invariant = { λ d. IsHistory d.history.txns d.history.table
        × (d.nodes.items ≡ map (is_node d.history.txns) d.history.txns)
        × RulesOutReads d.history.txns d.possible × (vec_len d.strays ≡ stray d.history.txns) };
}

fn is_among(numbers: &[u32], number: u32) -> bool
    ensures { result ≡ list_any (λ m. m == number) numbers.now }
{
    numbers.contains(&number)
}

impl<'v, 'a> Deps<'v, 'a> {
    /// The dependencies of a history, from what all pieces of its keys give.
    pub(crate) fn of_pieces(
        alloc: Global,
        history: History<'v, 'a>,
        pieces: &[PieceDeps],
    ) -> Result<Self, AllocError>
        requires kept { AreOfHistory history.txns }
        requires versions { IsTableOf history.table.keys history.txns history.table }
        requires pieces { ArePiecesOf history pieces.now }
        ensures { IfOk result (λ deps. deps ≡ history.entry) }
    {
        let possible = possible_in(pieces);
        let strays = strays(alloc, &history, possible)?;
        let nodes = nodes(alloc, &history, pieces)?;
        Ok(Deps {
            history,
            nodes,
            possible,
            strays,
        })
    }

    /// What `edges` gives. The only error is out of memory.
    pub fn of(
        alloc: Global,
        txns: &'v Txns<'a>,
        versions: &'v Versions<'a>,
    ) -> Result<Self, AllocError>
        requires history { AreOfHistory txns.now }
        requires versions { IsTableOf versions.now.keys txns.now versions.now }
        ensures { IfOk result (λ deps. deps ≡ record { txns = txns.now; table = versions.now }) }
    {
        let history = History::new(txns, versions);
        let whole = whole(alloc, &history)?;
        Deps::of_pieces(alloc, history, &[whole])
    }

    /// The transactions with the table of their versions.
    pub fn history(&self) -> &History<'v, 'a>
        ensures history { result.now ≡ self.now }
        ensures versions { IsTableOf self.now.table.keys self.now.txns self.now.table }
        ensures kept { AreOfHistory self.now.txns }
    {
        &self.history
    }

    /// Whether the transaction is a node: an ok one, or an info or open one that wrote what an ok
    /// transaction reads.
    pub fn is_node(&self, place: usize) -> bool
        requires { IsPlace self.now.txns place }
        ensures { result ≡ is_node self.now.txns (txn_at self.now.txns place) }
    {
        self.nodes[place]
    }

    /// Appends an edge from the transaction `from` to the one at index `place`, if that is another
    /// node.
    fn add_edge(
        &self,
        from: u64,
        place: usize,
        label: Label<'a>,
        out: &mut Vec<Edge<'a>>,
    ) -> Result<(), AllocError>
        requires { IsPlace self.now.txns place }
        ensures ok { OnOk result (Gains out.old out.new (edge_at self.now from place label.entry)) }
        ensures err { OnErr result (out.new.items ≡ out.old.items) }
    {
        let to = self.history.txn(place).invocation();
        if self.is_node(place) && from != to {
            out.push(Edge::new(from, to, label))?;
        }
        Ok(())
    }

    /// Appends the wr edges out of a version that the transaction `from` installs.
    fn add_wr(&self, from: u64, number: usize, out: &mut Vec<Edge<'a>>) -> Result<(), AllocError>
        requires number { IsNumber self.now.table number }
        requires written { IsWritten self.now.table number }
        ensures ok { OnOk result (Gains out.old out.new (wr_edges self.now from number)) }
        ensures err { OnErr result (Begins out.old.items out.new.items) }
    {
        let version = self.history.written(number);
        for place in self.history.readers(number) {
            let label = Label::Wr {
                key: version.key.copy(),
                value: version.value.copy(),
            };
            self.add_edge(from, *place as usize, label, out)?;
        }
        Ok(())
    }

    /// Appends the ww edges out of a version that the transaction `from` installs.
    fn add_ww(&self, from: u64, number: usize, out: &mut Vec<Edge<'a>>) -> Result<(), AllocError>
        requires number { IsNumber self.now.table number }
        requires written { IsWritten self.now.table number }
        ensures ok { OnOk result (Gains out.old out.new (ww_edges self.now from number)) }
        ensures err { OnErr result (Begins out.old.items out.new.items) }
    {
        let earlier = self.history.written(number);
        for follower in self.history.followers(number) {
            let later = self.history.written(follower.version as usize);
            let label = Label::Ww {
                key: later.key,
                earlier: earlier.value.copy(),
                later: later.value,
            };
            self.add_edge(from, follower.txn as usize, label, out)?;
        }
        Ok(())
    }

    /// Appends the rw edges out of a version that the transaction `from` reads.
    fn add_rw(&self, from: u64, number: usize, out: &mut Vec<Edge<'a>>) -> Result<(), AllocError>
        requires { IsNumber self.now.table number }
        ensures ok { OnOk result (Gains out.old out.new (rw_edges self.now from number)) }
        ensures err { OnErr result (Begins out.old.items out.new.items) }
    {
        let earlier = self.history.version(number);
        for follower in self.history.followers(number) {
            let later = self.history.written(follower.version as usize);
            let label = Label::Rw {
                key: later.key,
                earlier: earlier.value(),
                later: later.value,
            };
            self.add_edge(from, follower.txn as usize, label, out)?;
        }
        Ok(())
    }

    /// Appends the wr and the ww edges that leave the transaction at index `place`.
    fn add_out_of_installs(
        &self,
        from: u64,
        place: usize,
        out: &mut Vec<Edge<'a>>,
    ) -> Result<(), AllocError>
        requires { IsPlace self.now.txns place }
        ensures ok { OnOk result (Gains out.old out.new (edges_of_installs self.now from place)) }
        ensures err { OnErr result (Begins out.old.items out.new.items) }
    {
        for number in self.history.installs(place) {
            self.add_wr(from, *number as usize, out)?;
            self.add_ww(from, *number as usize, out)?;
        }
        Ok(())
    }

    /// Appends the rw edges that leave the transaction at index `place`. A version that it reads
    /// more than once counts once.
    fn add_out_of_reads(
        &self,
        from: u64,
        place: usize,
        out: &mut Vec<Edge<'a>>,
    ) -> Result<(), AllocError>
        requires { IsPlace self.now.txns place }
        ensures ok { OnOk result (Gains out.old out.new (edges_of_reads self.now from place)) }
        ensures err { OnErr result (Begins out.old.items out.new.items) }
    {
        let mut rest = self.history.reads(place);
        while let Some((number, later)) = rest.split_first() {
            if !is_among(later, *number) {
                self.add_rw(from, *number as usize, out)?;
            }
            rest = later;
        }
        Ok(())
    }

    /// Appends the edges that leave the transaction `from`, at index `place`; none where it is no
    /// node.
    fn add_edges(&self, from: u64, place: usize, out: &mut Vec<Edge<'a>>) -> Result<(), AllocError>
        requires place { IsPlace self.now.txns place }
        requires from { from ≡ (txn_at self.now.txns place).invocation }
        ensures ok { OnOk result (Gains out.old out.new (edges_at self.now place)) }
        ensures err { OnErr result (Begins out.old.items out.new.items) }
    {
        if !self.is_node(place) {
            return Ok(());
        }
        self.add_out_of_installs(from, place, out)?;
        self.add_out_of_reads(from, place, out)
    }

    /// Appends the dependency edges that leave the transaction; none where it is no node. Out of
    /// memory leaves what was there.
    pub fn edges_from(&self, place: usize, out: &mut Vec<Edge<'a>>) -> Result<(), AllocError>
        requires { IsPlace self.now.txns place }
        ensures ok { OnOk result
            (AddsEdgesFrom self.now.table.keys self.now.txns (txn_at self.now.txns place)
            out.old.items out.new.items) }
        ensures err { OnErr result (out.new.items ≡ out.old.items) }
    {
        let from = self.history.txn(place).invocation();
        let before = out.len();
        let added = self.add_edges(from, place, out);
        if added.is_err() {
            out.truncate(before);
        }
        added
    }

    /// The first aborted read: what an ok transaction reads and a failed one wrote.
    pub fn g1a(&self) -> Option<BadRead<'a>>
        ensures { result ≡ g1a self.now.txns }
    {
        first_aborted(&self.history, self.possible)
    }

    /// The first intermediate read: what an ok transaction reads and another one wrote before it
    /// wrote the key again.
    pub fn g1b(&self) -> Option<BadRead<'a>>
        ensures { result ≡ g1b self.now.txns }
    {
        first_intermediate(&self.history, self.possible)
    }

    /// How many external reads of ok transactions return a value that nobody wrote.
    pub fn stray(&self) -> u64
        ensures { result ≡ stray self.now.txns }
    {
        self.strays.len() as u64
    }
}
