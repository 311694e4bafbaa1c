//! Ranks that don't count some of the arcs of needed edges.

ghost use Rattle.std.specs.Prelude.{◌≡◌, ◌<◌, ◌≤◌, length, All, Contains, IfOk, OnOk};
ghost use Rattle.cycle_find.specs.Past.{AreArcLists, HasArcsPast, IsPairWithin, RisePast};
ghost use Rattle.cycle_find.specs.Tasks.{Includes};

use crate::sharing::{Shared, number};
use edge_graph::arcs::GraphArcs;
use flat_groups::groups::Groups;
use graph_search::arcs::{Arcs, Successors};
use graph_search::ranks::Ranks;
use std::alloc::{AllocError, Global};
use std::marker::Model;

/// Some arcs of a graph.
#[derive(Drop)]
struct SomeArcs {
    vertices: usize,
    arcs: Groups<u32>,
    ghost within: { AreArcLists vertices arcs },
}

impl Arcs for SomeArcs {
    ghost use Rattle.edge_graph.specs.Vertices.{graph_by};

    ghost graph = { λ a. graph_by a.arcs };

    fn vertices(&self) -> usize {
        self.vertices
    }

    fn successors(&self, vertex: usize) -> Successors<'_> {
        Successors::new(self.vertices, &[], self.arcs.get(vertex))
    }
}

/// Adds an arc to a vertex that isn't below the cut.
fn add_arc_past(
    from: usize,
    to: usize,
    cut: usize,
    vertices: usize,
    pairs: &mut Vec<(u32, u32)>,
) -> Result<(), AllocError>
    requires from { from < vertices }
    requires to { to < vertices }
    requires within { All (IsPairWithin vertices) pairs.old.items }
    ensures within { OnOk result (All (IsPairWithin vertices) pairs.new.items) }
    ensures kept { OnOk result (Includes pairs.old.items pairs.new.items) }
    ensures added { cut ≤ to → OnOk result (Contains pairs.new.items (from, to)) }
{
    if to < cut {
        return Ok(());
    }
    pairs.push((number(from)?, number(to)?))?;
    Ok(())
}

/// Adds, for each arc that leaves the vertex to one that isn't below the cut, the two vertices.
fn add_arcs_past(
    arcs: &GraphArcs<'_>,
    from: usize,
    cut: usize,
    pairs: &mut Vec<(u32, u32)>,
) -> Result<(), AllocError>
    requires from { from < length arcs.now }
    requires within { All (IsPairWithin (length arcs.now)) pairs.old.items }
    ensures within { OnOk result (All (IsPairWithin (length arcs.now)) pairs.new.items) }
    ensures kept { OnOk result (Includes pairs.old.items pairs.new.items) }
    ensures added { OnOk result (HasArcsPast arcs.now from cut pairs.new.items) }
{
    let successors = arcs.successors(from);
    for index in 0..successors.len() {
        add_arc_past(from, successors.at(index), cut, arcs.vertices(), pairs)?;
    }
    Ok(())
}

/// Ranks that fall along none of the arcs, except needed ones to vertices below the cut.
pub(crate) fn ranks_past(
    alloc: Global,
    others: &GraphArcs<'_>,
    needed: &GraphArcs<'_>,
    cut: usize,
) -> Result<Ranks, AllocError>
    requires { length others.now ≡ length needed.now }
    ensures { IfOk result (RisePast others.now needed.now cut) }
{
    let mut pairs = Vec::new(alloc);
    for from in 0..needed.vertices() {
        add_arcs_past(others, from, 0, &mut pairs)?;
        add_arcs_past(needed, from, cut, &mut pairs)?;
    }
    let arcs = SomeArcs {
        vertices: needed.vertices(),
        arcs: Groups::of(alloc, needed.vertices(), &pairs)?,
    };
    Ranks::of(alloc, &arcs)
}

/// Such ranks, and how long searches among the vertices of one rank have taken.
#[derive(Drop)]
pub(crate) struct Past {
    pub ranks: Ranks,
    shared: Shared,
    steps: usize,
}

impl Model for Past {
    ghost use Rattle.std.specs.Prelude.{◌≡◌, List, ℕ, length};

    ghost Value = { List ℕ };

    ghost view = { λ p. p.ranks };

    ghost invariant = { λ p. length p.shared ≡ length p.ranks };
}

impl Past {
    pub fn new(alloc: Global, ranks: Ranks) -> Result<Past, AllocError>
        ensures { IfOk result (λ past. past ≡ ranks) }
    {
        let shared = Shared::of(alloc, &ranks)?;
        Ok(Past {
            ranks,
            shared,
            steps: 0,
        })
    }

    /// Whether searches have taken as many steps as there are vertices.
    pub fn is_worn(&self) -> bool {
        self.steps > self.ranks.len()
    }

    /// Counts the steps of a search from a vertex, which goes no further where no other one has its
    /// rank.
    pub fn count(&mut self, vertex: usize, most: usize)
        requires { vertex < length self.old }
        ensures { self.new ≡ self.old }
    {
        if self.shared.contains(vertex) {
            self.steps = self.steps.saturating_add(most);
        }
    }
}
