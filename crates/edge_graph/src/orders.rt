//! The successors of each transaction in an order.

ghost use Rattle.std.specs.Prelude.{◌≡◌, ◌<◌, [], length, replicate, All, OnOk, IfOk};
ghost use Rattle.history_laws.specs.Times.{AreInvokedInOrder};
ghost use Rattle.dep_edges.specs.Histories.{AreOfHistory};
ghost use Rattle.hist_types.specs.declared.types.Level.TheVariants.{Process, Realtime};
ghost use Rattle.order_frontier.specs.Predecessors.{before_at};
ghost use Rattle.edge_graph.specs.Parts.{IsOrderOf};
ghost use Rattle.edge_graph.specs.Runs.{lists_in, empty_run, IsRunIn};
ghost use Rattle.edge_graph.specs.Successors.{ArePlaces, predecessors_at, HavePlaces, HaveOwnPlaces, AddsNode, list_at, lists_at, AreSuccessors, AreTurned};

use crate::rows::number;
use crate::runs::{Run, extended};
use dep_edges::deps::Deps;
use hist_types::types::Level;
use order_frontier::types::{Order, Predecessor};
use std::alloc::{AllocError, Global};
use std::marker::Model;
use txn_pairs::types::Txn;

/// The successors of each transaction in an order: the indexes of the nodes that it comes before.
/// In thinned order these are next to each other among all nodes, so that transactions share one
/// list.
#[derive(Drop)]
pub(crate) struct LaterNodes {
    nodes: Vec<u32>,
    runs: Vec<Run>,
}

impl Model for LaterNodes {
    ghost use Rattle.std.specs.Prelude.{List, ℕ, All};
    ghost use Rattle.edge_graph.specs.Runs.{lists_in, IsRunIn};

    ghost Value = { List (List ℕ) };

    ghost view = { λ later. lists_in later.nodes.items later.runs.items };

    ghost invariant = { λ later. All (IsRunIn later.nodes.items) later.runs.items };
}

impl LaterNodes {
    /// The lists of no transactions.
    fn empty(alloc: Global) -> Self
        ensures { result ≡ [] }
    {
        LaterNodes {
            nodes: Vec::new(alloc),
            runs: Vec::new(alloc),
        }
    }

    /// The successors of the transaction at an index; past the last transaction, none.
    pub fn get(&self, place: usize) -> &[u32]
        ensures { result.now ≡ list_at self.now place }
    {
        if place < self.runs.len() {
            let run = self.runs[place];
            &self.nodes[run.start as usize..run.end as usize]
        } else {
            &[]
        }
    }
}

/// The index of each transaction in the history, by that of its invocation among the events.
fn places(alloc: Global, txns: &[Txn<'_>]) -> Result<Vec<u32>, AllocError>
    requires { AreInvokedInOrder txns.now }
    ensures { IfOk result (λ places. ArePlaces txns.now places.items) }
{
    // Most transactions have two events.
    let mut places = Vec::with_capacity(alloc, txns.len().saturating_mul(2))?;
    for (place, txn) in txns.iter().enumerate() {
        let place = number(place)?;
        // Completions before this invocation get its index, too.
        places.resize(txn.invocation() as usize, place)?;
        places.push(place)?;
    }
    Ok(places)
}

/// The index of each transaction of a history, by that of its invocation among the events.
fn places_of(alloc: Global, deps: &Deps<'_, '_>) -> Result<Vec<u32>, AllocError>
    ensures kept { AreOfHistory deps.now.txns }
    ensures places { IfOk result (λ places. ArePlaces deps.now.txns places.items) }
{
    places(alloc, deps.history().txns())
}

fn predecessors(order: &Order, place: usize, level: Level) -> &[Predecessor]
    requires { place < length order.now }
    ensures { result.now ≡ predecessors_at level (before_at order.now place) }
{
    match level {
        Level::Plain => &[],
        Level::Process => order.in_process(place),
        Level::Realtime => order.in_realtime(place),
    }
}

/// Adds the node at an index to the lists of its predecessors.
fn push_node(
    predecessors: &[Predecessor],
    places: &[u32],
    place: u32,
    nodes: &mut Vec<u32>,
    runs: &mut [Run],
) -> Result<(), AllocError>
    requires placed { HavePlaces places.now (length runs.old) predecessors.now }
    requires apart { HaveOwnPlaces places.now predecessors.now }
    requires runs { All (IsRunIn nodes.old.items) runs.old }
    ensures runs { OnOk result (All (IsRunIn nodes.new.items) runs.new) }
    ensures lists { OnOk result
        (AddsNode places.now predecessors.now place (lists_in nodes.old.items runs.old)
        (lists_in nodes.new.items runs.new)) }
{
    nodes.push(place)?;
    for predecessor in predecessors {
        let first = places[predecessor.invocation as usize] as usize;
        runs[first] = extended(runs[first], place, nodes)?;
    }
    Ok(())
}

/// Lists without items.
fn empty_lists(alloc: Global, count: usize) -> Result<Vec<Run>, AllocError>
    ensures { IfOk result (λ runs. runs.items ≡ replicate count empty_run) }
{
    vec![in alloc; Run::default(); count]
}

/// The successors in the level's order, from the predecessors. The runs are those of empty lists.
fn turned(
    alloc: Global,
    deps: &Deps<'_, '_>,
    order: &Order,
    places: &[u32],
    level: Level,
    mut runs: Vec<Run>,
) -> Result<LaterNodes, AllocError>
    requires kept { AreOfHistory deps.now.txns }
    requires order { IsOrderOf deps.now.txns order.now }
    requires places { ArePlaces deps.now.txns places.now }
    requires runs { runs.items ≡ replicate (length order.now) empty_run }
    ensures { IfOk result (λ later. AreSuccessors deps.now.txns order.now level later) }
{
    let mut nodes = Vec::new(alloc);
    for place in 0..order.len() {
        if deps.is_node(place) {
            push_node(
                predecessors(order, place, level),
                places,
                number(place)?,
                &mut nodes,
                &mut runs,
            )?;
        }
    }
    Ok(LaterNodes { nodes, runs })
}

/// For each transaction the nodes that it comes before, within its process and in real time.
#[derive(Drop)]
pub(crate) struct Orders {
    in_plain: LaterNodes,
    in_process: LaterNodes,
    in_realtime: LaterNodes,
}

impl Model for Orders {
    ghost use Rattle.std.specs.Prelude.{◌≡◌, []};
    ghost use Rattle.edge_graph.specs.Successors.{Turned};

    ghost Value = { Turned };

    ghost view = { λ o. record { in_process = o.in_process; in_realtime = o.in_realtime } };

    ghost invariant = { λ o. o.in_plain ≡ [] };
}

impl Orders {
    /// The successors of each transaction at the two levels.
    pub fn new(alloc: Global, deps: &Deps<'_, '_>, order: &Order) -> Result<Self, AllocError>
        requires { IsOrderOf deps.now.txns order.now }
        ensures { IfOk result (AreTurned deps.now.txns order.now) }
    {
        // What is kept is made first, so that the memory of the places serves again once they are
        // dropped.
        let in_process = empty_lists(alloc, order.len())?;
        let in_realtime = empty_lists(alloc, order.len())?;
        let places = places_of(alloc, deps)?;
        let in_process = turned(alloc, deps, order, &places, Level::Process, in_process)?;
        let in_realtime = turned(alloc, deps, order, &places, Level::Realtime, in_realtime)?;
        Ok(Orders {
            in_plain: LaterNodes::empty(alloc),
            in_process,
            in_realtime,
        })
    }

    /// The successors of each transaction at the level.
    pub fn at(&self, level: Level) -> &LaterNodes
        ensures { result.now ≡ lists_at level self.now }
    {
        match level {
            Level::Plain => &self.in_plain,
            Level::Process => &self.in_process,
            Level::Realtime => &self.in_realtime,
        }
    }
}
