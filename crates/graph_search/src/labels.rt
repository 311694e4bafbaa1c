//! Numbers that say how far back cheap walks can lead.

ghost use Rattle.std.specs.Prelude.{◌≡◌, ◌+◌, ℕ, ◌<◌, ◌≤◌, length, slice_index, IfOk, OnOk, OnErr};
ghost use Rattle.graph_search.specs.Costs.{BoundsWalks, NoneAbove, not_above};
ghost use Rattle.graph_search.specs.Graphs.{Graph, HasArc};

use crate::arcs::{Arcs, Vertices};
use crate::components::number_of;
use crate::ranks::{never_fall, never_fall_between, zeros_unless};
use std::alloc::{AllocError, Global};
use std::marker::Model;

/// For each vertex a number: the least of the first n vertices to which a walk leads along free
/// arcs and at most `most` paid ones.
///
/// The contract promises a bound alone: no such walk ends in one of the first n vertices below the
/// number of the vertex where it began. Each round checks this by one look at each arc; if a check
/// failed, all numbers would be 0. The numbers are the least ones if each free arc that leaves one
/// of the first n vertices leads to a later one of them, and each other free arc to one of them.
#[derive(Drop)]
pub struct Labels {
    /// By vertex; `u32::MAX` for a vertex that leads to none of the first ones.
    numbers: Vec<u32>,
    /// How many of the vertices come first.
    places: usize,
    /// How many paid arcs a walk may have.
    most: usize,
}

impl Model for Labels {
    ghost use Rattle.graph_search.specs.Costs.{Labelling};

    ghost Value = { Labelling };

    ghost view = { λ labels. record {
      numbers = labels.numbers.items;
      places = labels.places;
      most = labels.most;
    } };
}

impl Labels {
    /// The numbers for walks along free arcs alone.
    pub fn start<F: Arcs>(alloc: Global, free: &F, places: usize) -> Result<Labels, AllocError>
        ensures numbers { IfOk result
            (λ labels. length labels.numbers ≡ (F.graph free.now).count) }
        ensures places { IfOk result (λ labels. labels.places ≡ places) }
        ensures most { IfOk result (λ labels. labels.most ≡ 0) }
        ensures bound { (paid : Graph) → IfOk result
            (λ labels. BoundsWalks (HasArc (F.graph free.now)) (HasArc paid) places 0
            labels.numbers) }
    {
        let mut numbers = own_places(alloc, free.vertices(), places)?;
        lower_freely(free, &mut numbers, places);
        let checked = never_fall(free, &numbers);
        Ok(Labels {
            numbers: zeros_unless(checked, numbers),
            places,
            most: 0,
        })
    }

    /// Goes on to walks with one more paid arc. Out of memory changes nothing.
    pub fn next<F: Arcs, P: Arcs>(
        &mut self,
        alloc: Global,
        free: &F,
        paid: &P,
    ) -> Result<(), AllocError>
        requires free { (F.graph free.now).count ≡ length self.old.numbers }
        requires paid { (P.graph paid.now).count ≡ length self.old.numbers }
        requires most { self.old.most < usize.MAX }
        requires bound { BoundsWalks (HasArc (F.graph free.now)) (HasArc (P.graph paid.now))
            self.old.places self.old.most self.old.numbers }
        ensures numbers { length self.new.numbers ≡ length self.old.numbers }
        ensures places { self.new.places ≡ self.old.places }
        ensures most { OnOk result (self.new.most ≡ self.old.most + 1) }
        ensures bound { OnOk result
            (BoundsWalks (HasArc (F.graph free.now)) (HasArc (P.graph paid.now))
            self.new.places self.new.most self.new.numbers) }
        ensures unchanged { OnErr result (self.new ≡ self.old) }
    {
        let mut numbers = after_paid(alloc, paid, &self.numbers)?;
        lower_freely(free, &mut numbers, self.places);
        let checked = never_fall(free, &numbers)
            && never_fall_between(paid, &numbers, &self.numbers);
        self.numbers = zeros_unless(checked, numbers);
        self.most += 1;
        Ok(())
    }

    /// How many paid arcs a walk may have.
    pub fn most(&self) -> usize
        ensures { result ≡ self.now.most }
    {
        self.most
    }

    /// A vertex's number.
    pub fn number(&self, vertex: usize) -> usize
        requires { vertex < length self.now.numbers }
        ensures { result ≡ slice_index self.now.numbers vertex }
    {
        self.numbers[vertex] as usize
    }
}

/// The number of each vertex by itself: the vertex, if it is one of the first ones.
fn own_places(alloc: Global, vertices: usize, places: usize) -> Result<Vec<u32>, AllocError>
    ensures length { IfOk result (λ numbers. length numbers.items ≡ vertices) }
    ensures own { (v : ℕ) → v < places → IfOk result (λ numbers. slice_index numbers.items v ≤ v) }
{
    let mut numbers = vec![in alloc; u32::MAX; vertices]?;
    for place in 0..places.min(vertices) {
        numbers[place] = number_of(place)?;
    }
    Ok(numbers)
}

/// The least number of a vertex's successors.
fn least_after<G: Arcs>(graph: &G, numbers: &[u32], vertex: usize) -> u32
    requires numbers { length numbers.now ≡ (G.graph graph.now).count }
    requires vertex { vertex < (G.graph graph.now).count }
{
    let successors = graph.successors(vertex);
    let mut least = u32::MAX;
    for index in 0..successors.len() {
        least = least.min(numbers[successors.at(index)]);
    }
    least
}

/// The numbers for walks whose first arc may be one more paid one.
fn after_paid<P: Arcs>(alloc: Global, paid: &P, numbers: &[u32]) -> Result<Vec<u32>, AllocError>
    requires { length numbers.now ≡ (P.graph paid.now).count }
    ensures length { IfOk result (λ lower. length lower.items ≡ length numbers.now) }
    ensures lower { IfOk result (λ lower. NoneAbove lower.items numbers.now) }
{
    let mut lower = Vec::with_capacity(alloc, numbers.len())?;
    for vertex in 0..numbers.len() {
        lower.push(numbers[vertex].min(least_after(paid, numbers, vertex)))?;
    }
    Ok(lower)
}

/// Lowers the number of a vertex to the least one of those that its free arcs lead to.
fn lower_one<F: Arcs>(free: &F, numbers: &mut [u32], vertex: usize)
    requires numbers { length numbers.old ≡ (F.graph free.now).count }
    requires vertex { vertex < (F.graph free.now).count }
    ensures { NoneAbove numbers.new numbers.old }
{
    numbers[vertex] = numbers[vertex].min(least_after(free, numbers, vertex));
}

/// Lowers each number to the least one that free arcs lead to: first the numbers of the first
/// vertices, from the last one back, and then the others.
fn lower_freely<F: Arcs>(free: &F, numbers: &mut [u32], places: usize)
    requires { length numbers.old ≡ (F.graph free.now).count }
    ensures { NoneAbove numbers.new numbers.old }
{
    for vertex in (0..places.min(numbers.len())).rev() {
        lower_one(free, numbers, vertex);
    }
    for vertex in places..numbers.len() {
        lower_one(free, numbers, vertex);
    }
}

/// The vertices whose number isn't above a limit.
#[derive(Clone, Copy)]
pub struct NotAbove<'a> {
    pub labels: &'a Labels,
    pub top: usize,
}

impl Vertices for NotAbove<'_> {
    ghost members = { λ set. not_above set.labels.now.numbers set.top };

    fn contains(&self, vertex: usize) -> bool {
        self.labels.number(vertex) <= self.top
    }
}
