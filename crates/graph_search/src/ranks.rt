//! Ranks of vertices, which don't fall along any arc.

ghost use Rattle.std.specs.Prelude.{◌≡◌, ◌↔◌, ℕ, ◌<◌, ◌≤◌, List, length, slice_index, All, IfOk, IsTrue};
ghost use Rattle.std.specs.Bool.{OnFalse, OnTrue};
ghost use Rattle.graph_search.specs.Graphs.{Graph, AllLeave, AreRanks, NeverFallBetween, NoneBelow, of_rank};

use crate::arcs::{Arcs, Vertices};
use crate::components::{component_ranks, component_ranks_from};
use crate::sweeps::far_numbers;
use std::alloc::{AllocError, Global};
use std::marker::Model;

/// A rank for each vertex of a graph.
#[derive(Drop)]
pub struct Ranks {
    ranks: Vec<u32>,
}

impl Model for Ranks {
    ghost Value = { List ℕ };

    ghost view = { λ ranks. ranks.ranks.items };
}

impl Ranks {
    /// Ranks that don't fall along any arc, and that are the same only in one strongly connected
    /// component.
    ///
    /// The first of these two promises is checked here, on all arcs, and is part of the contract.
    /// The second one rests on a search for the components that isn't proved: if its ranks ever
    /// fell, all ranks would be 0.
    pub fn of<G: Arcs>(alloc: Global, graph: &G) -> Result<Ranks, AllocError>
        ensures { IfOk result (AreRanks (G.graph graph.now)) }
    {
        let numbers = component_ranks(alloc, graph)?;
        let never_fall = never_fall(graph, &numbers);
        Ok(Ranks::if_checked(numbers, never_fall))
    }

    /// Ranks, as `of` gives them, of a graph whose arcs all leave vertices on the list. Beside a
    /// number for each vertex, this takes no more than these vertices and their arcs do.
    pub fn of_leaving<G: Arcs>(
        alloc: Global,
        graph: &G,
        vertices: &[u32],
    ) -> Result<Ranks, AllocError>
        requires within { All (λ v. v < (G.graph graph.now).count) vertices.now }
        requires leave { AllLeave (G.graph graph.now) vertices.now }
        ensures { IfOk result (AreRanks (G.graph graph.now)) }
    {
        let numbers = component_ranks_from(alloc, graph, vertices)?;
        Ok(Ranks::checked_leaving(graph, numbers, vertices))
    }

    /// Another ranking of the same graph, in linear time: a vertex ranks higher, the lower the
    /// greatest rank is to which it leads.
    ///
    /// The ranks of `of` put any two components in an order, also where neither leads to the other.
    /// Where this ranking has them the other way round, no search is needed. As with `of`, the
    /// contract says only that ranks don't fall along any arc.
    pub fn far_leaving<G: Arcs>(
        &self,
        alloc: Global,
        graph: &G,
        vertices: &[u32],
    ) -> Result<Ranks, AllocError>
        requires ranks { length self.now ≡ (G.graph graph.now).count }
        requires within { All (λ v. v < (G.graph graph.now).count) vertices.now }
        requires leave { AllLeave (G.graph graph.now) vertices.now }
        ensures { IfOk result (AreRanks (G.graph graph.now)) }
    {
        let numbers = far_numbers(alloc, graph, &self.ranks, vertices)?;
        Ok(Ranks::checked_leaving(graph, numbers, vertices))
    }

    /// Ranks by these numbers, or 0 for each vertex if they fall along an arc. All arcs leave
    /// vertices on the list.
    fn checked_leaving<G: Arcs>(graph: &G, numbers: Vec<u32>, vertices: &[u32]) -> Ranks
        requires numbers { length numbers.items ≡ (G.graph graph.now).count }
        requires within { All (λ v. v < (G.graph graph.now).count) vertices.now }
        requires leave { AllLeave (G.graph graph.now) vertices.now }
        ensures { AreRanks (G.graph graph.now) result }
    {
        let never_fall = never_fall_leaving(graph, &numbers, vertices);
        Ranks::if_checked(numbers, never_fall)
    }

    /// Ranks by these numbers if a check found that they never fall, else 0 for each vertex.
    fn if_checked(numbers: Vec<u32>, never_fall: bool) -> Ranks
        ensures { (graph : Graph) → length numbers.items ≡ graph.count
            → OnTrue never_fall (AreRanks graph numbers.items) → AreRanks graph result }
    {
        Ranks {
            ranks: zeros_unless(never_fall, numbers),
        }
    }

    /// One rank for all of n vertices, which falls along no arc of any graph.
    pub fn flat(alloc: Global, vertices: usize) -> Result<Ranks, AllocError>
        ensures { (graph : Graph) → graph.count ≡ vertices → IfOk result (AreRanks graph) }
    {
        let ranks = vec![in alloc; 0; vertices]?;
        Ok(Ranks { ranks })
    }

    /// Whether the ranks don't fall along any arc of another graph.
    pub fn hold_in<G: Arcs>(&self, graph: &G) -> bool
        requires { length self.now ≡ (G.graph graph.now).count }
        ensures { IsTrue result ↔ AreRanks (G.graph graph.now) self.now }
    {
        never_fall(graph, &self.ranks)
    }

    /// How many vertices have a rank.
    pub fn len(&self) -> usize
        ensures { result ≡ length self.now }
    {
        self.ranks.len()
    }

    /// A vertex's rank.
    pub fn rank(&self, vertex: usize) -> usize
        requires { vertex < length self.now }
        ensures { result ≡ slice_index self.now vertex }
    {
        self.ranks[vertex] as usize
    }
}

/// These numbers if they passed a check, else as many zeros.
pub(crate) fn zeros_unless(checked: bool, mut numbers: Vec<u32>) -> Vec<u32>
    ensures length { length result.items ≡ length numbers.items }
    ensures checked { OnTrue checked (result.items ≡ numbers.items) }
    ensures unchecked { OnFalse checked ((v : ℕ) → slice_index result.items v ≡ 0) }
{
    if !checked {
        numbers.fill(0);
    }
    numbers
}

/// Whether no successor of a vertex has a number below this one.
fn none_below<G: Arcs>(graph: &G, numbers: &[u32], vertex: usize, least: u32) -> bool
    requires numbers { length numbers.now ≡ (G.graph graph.now).count }
    requires vertex { vertex < (G.graph graph.now).count }
    ensures { IsTrue result ↔ NoneBelow (G.graph graph.now) numbers.now vertex least }
{
    let successors = graph.successors(vertex);
    for index in 0..successors.len() {
        if numbers[successors.at(index)] < least {
            return false;
        }
    }
    true
}

/// Whether each arc leads from a number of the first list to one of the second that isn't below it.
pub(crate) fn never_fall_between<G: Arcs>(graph: &G, before: &[u32], after: &[u32]) -> bool
    requires before { length before.now ≡ (G.graph graph.now).count }
    requires after { length after.now ≡ (G.graph graph.now).count }
    ensures { IsTrue result ↔ NeverFallBetween (G.graph graph.now) before.now after.now }
{
    for vertex in 0..graph.vertices() {
        if !none_below(graph, after, vertex, before[vertex]) {
            return false;
        }
    }
    true
}

/// Whether ranks fall along no arc.
pub(crate) fn never_fall<G: Arcs>(graph: &G, ranks: &[u32]) -> bool
    requires { length ranks.now ≡ (G.graph graph.now).count }
    ensures { IsTrue result ↔ AreRanks (G.graph graph.now) ranks.now }
{
    never_fall_between(graph, ranks, ranks)
}

/// Whether ranks fall along no arc of a graph whose arcs all leave vertices on the list.
fn never_fall_leaving<G: Arcs>(graph: &G, ranks: &[u32], vertices: &[u32]) -> bool
    requires ranks { length ranks.now ≡ (G.graph graph.now).count }
    requires within { All (λ v. v < (G.graph graph.now).count) vertices.now }
    requires leave { AllLeave (G.graph graph.now) vertices.now }
    ensures { OnTrue result (AreRanks (G.graph graph.now) ranks.now) }
{
    for vertex in vertices {
        let vertex = *vertex as usize;
        if !none_below(graph, ranks, vertex, ranks[vertex]) {
            return false;
        }
    }
    true
}

/// The vertices of one rank.
#[derive(Clone, Copy)]
pub struct OfRank<'a> {
    pub ranks: &'a Ranks,
    pub rank: usize,
}

impl Vertices for OfRank<'_> {
    ghost members = { λ set. of_rank set.ranks.now set.rank };

    fn contains(&self, vertex: usize) -> bool {
        self.ranks.rank(vertex) == self.rank
    }
}
