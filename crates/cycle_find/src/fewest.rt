//! The search for a closed walk with fewer dependency edges than one that was found.
//!
//! Such a walk is a needed edge and a way back from its second end to its first. So for a bound on
//! the way back, which rises, each transaction to which a needed edge leads is searched from, layer
//! by layer: order edges cost nothing. Labels say which vertices lead back in time to any
//! transaction from which such an edge comes, for so few dependency edges; no other is entered, and
//! most transactions aren't searched from at all. Beside its labels it stores a few numbers for
//! each vertex and each needed arc.

ghost use Rattle.std.specs.Prelude.{◌≡◌, ◌+◌, ◌<◌, ℕ, length, option_map, IfOk};
ghost use Rattle.std.specs.List.{list_any};
ghost use Rattle.dep_edges.specs.Tables.{IsPlace};
ghost use Rattle.edge_graph.specs.Parts.{edges_in};
ghost use Rattle.hist_types.specs.Phenomena.{Shows};
ghost use Rattle.hist_types.specs.Witness.{HasFewest};
ghost use Rattle.cycle_find.specs.Fewest.{AreLabels, AreMarkedFor, AreTrueMarks, IsReturnAlong, IsReturnIfAny, IsWithinOr, NoneTo, is_marked_version};
ghost use Rattle.cycle_find.specs.Found.{NeedsMoreThan};
ghost use Rattle.cycle_find.specs.Past.{AreRanksPast};
ghost use Rattle.cycle_find.specs.Tasks.{task_of, vertices_in};

use crate::kinds::{needed, others, way_back};
use crate::leading::{last_leading, leading};
use crate::ranks_past::{Past, ranks_past};
use crate::types::Walk;
use edge_graph::arcs::{GraphArcs, SplitArcs};
use edge_graph::graph::Graph;
use edge_graph::types::Kinds;
use flat_groups::groups::Groups;
use graph_search::arcs::{Arcs, Successors, Vertices};
use graph_search::breadth_first::Search;
use graph_search::labels::{Labels, NotAbove};
use graph_search::ranks::{OfRank, Ranks};
use hist_types::types::{Level, Phenomenon};
use std::alloc::{AllocError, Global};
use std::marker::Model;

/// How many dependency edges are tried one by one.
const FEW: usize = 32;

/// The transactions that have a mark, or lead to a version that has it.
#[derive(Clone, Copy)]
struct Marked<'r> {
    places: usize,
    arcs: &'r GraphArcs<'r>,
    marks: &'r [usize],
    mark: usize,
    ghost one_each: { length marks.now ≡ length arcs.now },
}

impl Marked<'_> {
    /// Whether one of the vertices is a version that has the mark.
    fn has_version(&self, vertices: &Successors<'_>) -> bool
        requires { vertices.now.count ≡ length self.now.marks.now }
        ensures { result
            ≡ list_any (is_marked_version self.now.places self.now.marks.now self.now.mark)
            vertices.now.to }
    {
        for index in 0..vertices.len() {
            let vertex = vertices.at(index);
            if vertex >= self.places && self.marks[vertex] == self.mark {
                return true;
            }
        }
        false
    }
}

impl Vertices for Marked<'_> {
    ghost use Rattle.cycle_find.specs.Fewest.{marked};

    ghost members = { λ set. marked set.places set.arcs.now set.marks.now set.mark };

    fn contains(&self, vertex: usize) -> bool {
        vertex < self.places
            && (self.marks[vertex] == self.mark || self.has_version(&self.arcs.successors(vertex)))
    }
}

/// A search for a closed walk with few dependency edges that shows a phenomenon at a level.
#[derive(Drop)]
pub(crate) struct Fewest<'r, 'g, 'v, 'a> {
    alloc: Global,
    graph: &'r Graph<'g, 'v, 'a>,
    phenomenon: Phenomenon,
    level: Level,
    /// The arcs of the edges of which it needs one.
    needed: GraphArcs<'r>,
    /// For each vertex, what leads to it by such an arc.
    leading: Groups<u32>,
    /// For each transaction, a place that none of those is above from which a needed edge leads to
    /// it.
    last: Vec<usize>,
    /// The arcs of a way back that cost no dependency edge.
    free: SplitArcs<'r>,
    /// Those that cost one.
    paid: SplitArcs<'r>,
}

impl<'r, 'g, 'v, 'a> Model for Fewest<'r, 'g, 'v, 'a> {
    ghost use Rattle.cycle_find.specs.Fewest.{IsReadyForFewest};
    ghost use Rattle.cycle_find.specs.Tasks.{Task, task_of};

    ghost Value = { Task };

    ghost view = { λ f. task_of f.graph.now f.phenomenon f.level };

    ghost invariant = { λ f. IsReadyForFewest (task_of f.graph.now f.phenomenon f.level)
        f.needed f.leading f.last.items f.free f.paid };
}

/// What searches one after another share.
impl<'r, 'g, 'v, 'a> Fewest<'r, 'g, 'v, 'a> {
    pub fn new(
        alloc: Global,
        graph: &'r Graph<'g, 'v, 'a>,
        phenomenon: Phenomenon,
        level: Level,
    ) -> Result<Self, AllocError>
        ensures { IfOk result (λ fewest. fewest ≡ task_of graph.now phenomenon level) }
    {
        let arcs = graph.arcs(needed(phenomenon), Level::Plain);
        let leading = leading(alloc, &arcs)?;
        let last = last_leading(alloc, &arcs, graph.len())?;
        let back = way_back(phenomenon);
        Ok(Fewest {
            alloc,
            graph,
            phenomenon,
            level,
            needed: arcs,
            leading,
            last,
            free: graph.free_arcs(back, level),
            paid: graph.paid_arcs(back),
        })
    }

    /// A closed walk with the fewest dependency edges, by one that was found. Each has more than
    /// the floor.
    pub fn find(&self, first: Walk<'a>, floor: usize) -> Result<Walk<'a>, AllocError>
        requires shows { Shows self.now.phenomenon (edges_in self.now.graph self.now.level) first }
        ensures shows { IfOk result
            (Shows self.now.phenomenon (edges_in self.now.graph self.now.level)) }
        ensures fewest { NeedsMoreThan floor self.now.phenomenon (edges_in self.now.graph self.now.level)
            → IfOk result
            (HasFewest self.now.phenomenon (edges_in self.now.graph self.now.level)) }
    {
        let vertices = self.needed.vertices();
        let mut search = Search::new(self.alloc, vertices)?;
        let mut marks = vec![in self.alloc; 0; vertices]?;
        self.find_by(&mut search, &mut marks, first, floor)
    }

    /// Asks for a walk with one dependency edge more than the floor, with two more, and so on.
    /// Where that takes many rounds, it goes on by bounds that are far apart.
    fn find_by(
        &self,
        search: &mut Search,
        marks: &mut [usize],
        first: Walk<'a>,
        floor: usize,
    ) -> Result<Walk<'a>, AllocError>
        requires search { search.old ≡ vertices_in self.now.graph }
        requires marks { length marks.old ≡ vertices_in self.now.graph }
        requires true_marks { AreTrueMarks self.now marks.old }
        requires shows { Shows self.now.phenomenon (edges_in self.now.graph self.now.level) first }
        ensures shows { IfOk result
            (Shows self.now.phenomenon (edges_in self.now.graph self.now.level)) }
        ensures fewest { NeedsMoreThan floor self.now.phenomenon (edges_in self.now.graph self.now.level)
            → IfOk result
            (HasFewest self.now.phenomenon (edges_in self.now.graph self.now.level)) }
    {
        let few = first.dependency_edges().saturating_sub(1).min(FEW);
        let mut labels = Labels::start(self.alloc, &self.free, self.graph.len())?;
        for most in 0..few {
            if most >= floor {
                let found = self.find_within(search, marks, &labels)?;
                if let Some(walk) = found {
                    return Ok(walk);
                }
            }
            labels.next(self.alloc, &self.free, &self.paid)?;
        }
        self.find_far(search, marks, first, few)
    }

    /// A closed walk with the fewest dependency edges, by one that was found, where each has more
    /// than a number. The bound doubles until one has so few, and then halves what is left.
    fn find_far(
        &self,
        search: &mut Search,
        marks: &mut [usize],
        first: Walk<'a>,
        passed: usize,
    ) -> Result<Walk<'a>, AllocError>
        requires search { search.old ≡ vertices_in self.now.graph }
        requires marks { length marks.old ≡ vertices_in self.now.graph }
        requires true_marks { AreTrueMarks self.now marks.old }
        requires shows { Shows self.now.phenomenon (edges_in self.now.graph self.now.level) first }
        ensures shows { IfOk result
            (Shows self.now.phenomenon (edges_in self.now.graph self.now.level)) }
        ensures fewest { NeedsMoreThan passed self.now.phenomenon (edges_in self.now.graph self.now.level)
            → IfOk result
            (HasFewest self.now.phenomenon (edges_in self.now.graph self.now.level)) }
    {
        let mut best = first;
        let mut least = passed;
        while best.dependency_edges().saturating_sub(1) > least {
            let step = ((best.dependency_edges() - least) / 2).min(least + 1);
            match self.find_past(search, marks, least + step - 1)? {
                Some(walk) => best = walk,
                None => least += step,
            }
        }
        Ok(best)
    }

    /// A closed walk whose way back has at most so many dependency edges. Where a transaction was
    /// searched from in vain, needed edges to it are no part of one, and without those more and
    /// more vertices have a rank of their own.
    fn find_past(
        &self,
        search: &mut Search,
        marks: &mut [usize],
        most: usize,
    ) -> Result<Option<Walk<'a>>, AllocError>
        requires search { search.old ≡ vertices_in self.now.graph }
        requires marks { length marks.old ≡ vertices_in self.now.graph }
        requires true_marks { AreTrueMarks self.now marks.old }
        ensures search { search.new ≡ search.old }
        ensures marks { length marks.new ≡ length marks.old }
        ensures true_marks { AreTrueMarks self.now marks.new }
        ensures found { IfOk result
            (IsWithinOr self.now most
            (NeedsMoreThan (most + 1) self.now.phenomenon
            (edges_in self.now.graph self.now.level))) }
    {
        let mut past = self.past(0)?;
        for to in 0..self.graph.len() {
            past = self.renewed(past, to)?;
            let found = self.find_to_past(search, marks, &past.ranks, to, most)?;
            if found.is_some() {
                return Ok(found);
            }
            past.count(to, most);
        }
        Ok(None)
    }

    /// Ranks without the needed edges to the transactions before a place.
    fn past(&self, cut: usize) -> Result<Past, AllocError>
        ensures { IfOk result (λ past. AreRanksPast self.now cut past) }
    {
        let others = self.graph.arcs(others(self.phenomenon), self.level);
        let ranks = ranks_past(self.alloc, &others, &self.needed, cut)?;
        Past::new(self.alloc, ranks)
    }

    /// These ranks, or if searches have taken as long as ranking does, new ones.
    fn renewed(&self, past: Past, to: usize) -> Result<Past, AllocError>
        requires { AreRanksPast self.now to past }
        ensures { IfOk result (λ past. AreRanksPast self.now to past) }
    {
        if past.is_worn() {
            self.past(to)
        } else {
            Ok(past)
        }
    }

    /// One by a needed edge that leads to the transaction, where those to earlier ones are no part
    /// of any.
    fn find_to_past(
        &self,
        search: &mut Search,
        marks: &mut [usize],
        ranks: &Ranks,
        to: usize,
        most: usize,
    ) -> Result<Option<Walk<'a>>, AllocError>
        requires search { search.old ≡ vertices_in self.now.graph }
        requires marks { length marks.old ≡ vertices_in self.now.graph }
        requires true_marks { AreTrueMarks self.now marks.old }
        requires ranks { AreRanksPast self.now to ranks.now }
        requires passed { (b : ℕ) → b < to → NoneTo self.now most b }
        requires to { IsPlace self.now.graph.txns to }
        ensures search { search.new ≡ search.old }
        ensures marks { length marks.new ≡ length marks.old }
        ensures true_marks { AreTrueMarks self.now marks.new }
        ensures found { IfOk result (IsWithinOr self.now most (NoneTo self.now most to)) }
    {
        if self.leading.get(to).is_empty() {
            return Ok(None);
        }
        self.mark_leading(to, marks);
        match self.way_in_rank(search, marks, ranks, to, most)? {
            Some(way) => self.close(&way, to),
            None => Ok(None),
        }
    }

    /// A way back from the transaction to one from which a needed edge leads to it, among the
    /// vertices of its rank.
    fn way_in_rank(
        &self,
        search: &mut Search,
        marks: &[usize],
        ranks: &Ranks,
        to: usize,
        most: usize,
    ) -> Result<Option<Vec<usize>>, AllocError>
        requires search { search.old ≡ vertices_in self.now.graph }
        requires marks { length marks.now ≡ vertices_in self.now.graph }
        requires true_marks { AreTrueMarks self.now marks.now }
        requires marked { AreMarkedFor self.now to marks.now }
        requires ranks { AreRanksPast self.now to ranks.now }
        requires passed { (b : ℕ) → b < to → NoneTo self.now most b }
        requires to { IsPlace self.now.graph.txns to }
        ensures search { search.new ≡ search.old }
        ensures way { IfOk result
            (λ found. IsReturnIfAny self.now most to (option_map (λ way. way.items) found)) }
    {
        let targets = Marked {
            places: self.graph.len(),
            arcs: &self.needed,
            marks,
            mark: to + 1,
        };
        let allowed = OfRank {
            ranks,
            rank: ranks.rank(to),
        };
        search.walk_within(
            self.alloc, &self.free, &self.paid, &allowed, &targets, to, most,
        )
    }

    /// A closed walk whose way back has no more dependency edges than the labels are for.
    fn find_within(
        &self,
        search: &mut Search,
        marks: &mut [usize],
        labels: &Labels,
    ) -> Result<Option<Walk<'a>>, AllocError>
        requires search { search.old ≡ vertices_in self.now.graph }
        requires marks { length marks.old ≡ vertices_in self.now.graph }
        requires true_marks { AreTrueMarks self.now marks.old }
        requires labels { AreLabels self.now labels.now }
        ensures search { search.new ≡ search.old }
        ensures marks { length marks.new ≡ length marks.old }
        ensures true_marks { AreTrueMarks self.now marks.new }
        ensures found { IfOk result
            (IsWithinOr self.now labels.now.most ((to : ℕ) → IsPlace self.now.graph.txns to → NoneTo self.now labels.now.most to)) }
    {
        for to in 0..self.graph.len() {
            let found = self.find_to(search, marks, labels, to)?;
            if found.is_some() {
                return Ok(found);
            }
        }
        Ok(None)
    }

    /// One by a needed edge that leads to the transaction.
    fn find_to(
        &self,
        search: &mut Search,
        marks: &mut [usize],
        labels: &Labels,
        to: usize,
    ) -> Result<Option<Walk<'a>>, AllocError>
        requires search { search.old ≡ vertices_in self.now.graph }
        requires marks { length marks.old ≡ vertices_in self.now.graph }
        requires true_marks { AreTrueMarks self.now marks.old }
        requires labels { AreLabels self.now labels.now }
        requires to { IsPlace self.now.graph.txns to }
        ensures search { search.new ≡ search.old }
        ensures marks { length marks.new ≡ length marks.old }
        ensures true_marks { AreTrueMarks self.now marks.new }
        ensures found { IfOk result
            (IsWithinOr self.now labels.now.most (NoneTo self.now labels.now.most to)) }
    {
        if self.leading.get(to).is_empty() {
            return Ok(None);
        }
        if labels.number(to) > self.last[to] {
            return Ok(None);
        }
        self.mark_leading(to, marks);
        match self.way_back(search, marks, labels, to)? {
            Some(way) => self.close(&way, to),
            None => Ok(None),
        }
    }

    /// Marks what leads to the transaction by a needed arc with the number after its place.
    fn mark_leading(&self, to: usize, marks: &mut [usize])
        requires marks { length marks.old ≡ vertices_in self.now.graph }
        requires true_marks { AreTrueMarks self.now marks.old }
        requires to { IsPlace self.now.graph.txns to }
        ensures length { length marks.new ≡ length marks.old }
        ensures true_marks { AreTrueMarks self.now marks.new }
        ensures marked { AreMarkedFor self.now to marks.new }
    {
        for from in self.leading.get(to) {
            marks[*from as usize] = to + 1;
        }
    }

    /// A way back from the transaction to one from which a needed edge leads to it.
    fn way_back(
        &self,
        search: &mut Search,
        marks: &[usize],
        labels: &Labels,
        to: usize,
    ) -> Result<Option<Vec<usize>>, AllocError>
        requires search { search.old ≡ vertices_in self.now.graph }
        requires marks { length marks.now ≡ vertices_in self.now.graph }
        requires true_marks { AreTrueMarks self.now marks.now }
        requires marked { AreMarkedFor self.now to marks.now }
        requires labels { AreLabels self.now labels.now }
        requires to { IsPlace self.now.graph.txns to }
        ensures search { search.new ≡ search.old }
        ensures way { IfOk result
            (λ found. IsReturnIfAny self.now labels.now.most to (option_map (λ way. way.items) found)) }
    {
        let targets = Marked {
            places: self.graph.len(),
            arcs: &self.needed,
            marks,
            mark: to + 1,
        };
        let allowed = NotAbove {
            labels,
            top: self.last[to],
        };
        search.walk_within(
            self.alloc,
            &self.free,
            &self.paid,
            &allowed,
            &targets,
            to,
            labels.most(),
        )
    }

    /// The closed walk along a needed edge and a way back.
    fn close(&self, way: &[usize], to: usize) -> Result<Option<Walk<'a>>, AllocError>
        requires { (most : ℕ) × IsReturnAlong self.now most to way.now }
        ensures { (most : ℕ) → IsReturnAlong self.now most to way.now
            → IfOk result (IsWithinOr self.now most (NoneTo self.now most to)) }
    {
        let from = way[way.len() - 1];
        let kinds = Kinds::of(needed(self.phenomenon), Level::Plain);
        let Some(edge) = self.graph.edge_between(from, to, kinds)? else {
            return Ok(None);
        };
        let back = self
            .graph
            .edges_along(way, way_back(self.phenomenon), self.level)?;
        Ok(Some(Walk::closing(edge, back)?))
    }
}
