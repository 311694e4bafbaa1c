//! Ranks and shortest walks of graphs of eight vertices.

ghost use Rattle.std.specs.Prelude.{◌≡◌, ◌<◌, ℕ, All, Contains, map, length, true, []};
ghost use Rattle.std.specs.Prelude.{slice_index_or, IfOk};

use crate::stopped::Stopped;
use graph_search::arcs::{Arcs, Successors, Vertices};
use graph_search::breadth_first::Search;
use graph_search::ranks::Ranks;
use std::alloc::{AllocError, Global};
use std::io;

/// A graph as a list of successors for each vertex.
#[derive(Drop)]
struct Lists {
    lists: Vec<Vec<u32>>,
    ghost within: { All
        (λ (list : _). All (λ w. w < length lists.items) list.items) lists.items },
}

impl Lists {
    fn new(alloc: Global, vertices: usize) -> Result<Lists, AllocError>
        ensures { IfOk result (λ graph. length graph.lists.items ≡ vertices) }
    {
        let mut lists = Vec::new(alloc);
        for _ in 0..vertices {
            lists.push(Vec::new(alloc))?;
        }
        Ok(Lists { lists })
    }

    fn add(&mut self, from: usize, to: usize) -> Result<(), AllocError>
        requires from { from < length self.old.lists.items }
        requires to { to < length self.old.lists.items }
        ensures { length self.new.lists.items ≡ length self.old.lists.items }
    {
        let to = u32::try_from(to).map_err(|_| AllocError)?;
        self.lists[from].push(to)?;
        Ok(())
    }
}

impl Arcs for Lists {
    ghost graph = { λ graph. record {
      count = length graph.lists.items;
      successors = λ v. slice_index_or (map (λ (list : _). list.items) graph.lists.items) v [];
    } };

    fn vertices(&self) -> usize {
        self.lists.len()
    }

    fn successors(&self, vertex: usize) -> Successors<'_> {
        Successors::new(self.lists.len(), &self.lists[vertex], &[])
    }
}

/// All of eight vertices.
struct Eight;

impl Vertices for Eight {
    ghost members = { λ _. record { count = 8; has = λ _. true } };

    fn contains(&self, _vertex: usize) -> bool {
        true
    }
}

/// The numbers of eight vertices.
fn all_of_eight() -> [u32; 8]
    ensures within { All (λ v. v < 8) result }
    ensures all { (v : ℕ) → v < 8 → Contains result v }
{
    [0, 1, 2, 3, 4, 5, 6, 7]
}

/// The numbers of eight vertices, the last one first.
fn eight_from_last() -> [u32; 8]
    ensures within { All (λ v. v < 8) result }
    ensures all { (v : ℕ) → v < 8 → Contains result v }
{
    [7, 6, 5, 4, 3, 2, 1, 0]
}

/// The rankings by what ranks the vertices lead to, and by a search that begins at the last one, of
/// a graph of eight.
fn far_and_late(alloc: Global, graph: &Lists, ranks: &Ranks) -> Result<(Ranks, Ranks), AllocError>
    requires graph { length graph.now.lists.items ≡ 8 }
    requires ranks { length ranks.now ≡ 8 }
    ensures far { IfOk result (λ both. length both.0 ≡ 8) }
    ensures late { IfOk result (λ both. length both.1 ≡ 8) }
{
    let far = ranks.far_leaving(alloc, graph, &all_of_eight())?;
    let late = Ranks::of_leaving(alloc, graph, &eight_from_last())?;
    Ok((far, late))
}

/// The graph of eight vertices that a line draws: for each vertex a byte for each one, which is 1
/// if an arc leads there.
fn graph_of(alloc: Global, line: &[u8]) -> Result<Lists, AllocError>
    ensures { IfOk result (λ graph. length graph.lists.items ≡ 8) }
{
    let mut graph = Lists::new(alloc, 8)?;
    for place in 0..64usize {
        if line.get(place) == Some(&b'1') {
            graph.add(place / 8, place % 8)?;
        }
    }
    Ok(graph)
}

fn print_ranks<R: Print>(rt: &R, word: &str, ranks: &Ranks) -> io::Result<()> {
    print!(rt; "{word}")?;
    for vertex in 0..ranks.len() {
        print!(rt; " {}", ranks.rank(vertex))?;
    }
    println!(rt)
}

/// Prints of how many arcs the shortest walks are, from each vertex to each one.
fn print_walks<R: Print>(rt: &R, alloc: Global, graph: &Lists) -> Result<(), Stopped>
    requires { length graph.now.lists.items ≡ 8 }
{
    let mut search = Search::new(alloc, 8)?;
    print!(rt; "walks")?;
    for place in 0..64usize {
        match search.walk(alloc, graph, &Eight, place / 8, place % 8)? {
            Some(walk) => print!(rt; " {}", walk.len().saturating_sub(1))?,
            None => print!(rt; " none")?,
        }
    }
    println!(rt)?;
    Ok(())
}

/// Prints rankings and walks of a graph.
fn print_graph<R: Print>(rt: &R, alloc: Global, line: &[u8]) -> Result<(), Stopped> {
    let graph = graph_of(alloc, line)?;
    let ranks = Ranks::of(alloc, &graph)?;
    let (far, late) = far_and_late(alloc, &graph, &ranks)?;
    print_ranks(rt, "ranks", &ranks)?;
    print_ranks(rt, "far", &far)?;
    print_ranks(rt, "late", &late)?;
    print_walks(rt, alloc, &graph)
}

/// Prints rankings and walks of the graphs that the lines of standard input draw.
pub fn run<R: Input + Print>(rt: &R, alloc: Global) -> Result<(), Stopped> {
    for line in rt.lines(alloc) {
        print_graph(rt, alloc, line?.as_bytes())?;
    }
    Ok(())
}
