//! Which vertices share their rank with another one. All cycles are among them.

ghost use Rattle.std.specs.Prelude.{◌≡◌, ◌<◌, ◌-◌, false, length, min, slice_index, slice_index_or, IfOk};
ghost use Rattle.cycle_find.specs.Sharing.{AreCounted, AreListed, AreSharing, slot};

use graph_search::ranks::Ranks;
use std::alloc::{AllocError, Global};
use std::marker::Model;

/// For each of some vertices, whether another one has its rank.
#[derive(Drop)]
pub(crate) struct Shared {
    flags: Vec<bool>,
    /// The vertices of which it is true.
    list: Vec<u32>,
}

impl Model for Shared {
    ghost use Rattle.std.specs.Prelude.{List, Bool};
    ghost use Rattle.cycle_find.specs.Sharing.{AreListed};

    ghost Value = { List Bool };

    ghost view = { λ s. s.flags.items };

    ghost invariant = { λ s. AreListed s.flags.items s.list.items };
}

/// No memory holds more numbers than there are.
pub(crate) fn number(vertex: usize) -> Result<u32, AllocError>
    ensures { IfOk result (λ n. n ≡ vertex) }
{
    u32::try_from(vertex).map_err(|_| AllocError)
}

/// Where a vertex is counted: by its rank, which is less than the number of vertices.
fn slot(ranks: &Ranks, vertex: usize) -> usize
    requires { vertex < length ranks.now }
    ensures { result ≡ slot ranks.now vertex }
{
    ranks.rank(vertex).min(ranks.len() - 1)
}

/// How many vertices have each rank, where 255 may be more.
fn counts(alloc: Global, ranks: &Ranks) -> Result<Vec<u8>, AllocError>
    ensures { IfOk result (λ counts. AreCounted ranks.now counts.items) }
{
    let mut counts = vec![in alloc; 0u8; ranks.len()]?;
    for vertex in 0..ranks.len() {
        let slot = slot(ranks, vertex);
        counts[slot] = counts[slot].saturating_add(1);
    }
    Ok(counts)
}

/// For each vertex, whether another one has its rank.
fn flags(alloc: Global, ranks: &Ranks) -> Result<Vec<bool>, AllocError>
    ensures { IfOk result (λ shared. AreSharing ranks.now shared.items) }
{
    let counts = counts(alloc, ranks)?;
    let mut shared = vec![in alloc; false; ranks.len()]?;
    for vertex in 0..ranks.len() {
        shared[vertex] = counts[slot(ranks, vertex)] > 1;
    }
    Ok(shared)
}

/// The numbers of the flags that are true.
fn list_of(alloc: Global, flags: &[bool]) -> Result<Vec<u32>, AllocError>
    ensures { IfOk result (λ list. AreListed flags.now list.items) }
{
    let mut list = Vec::with_capacity(alloc, flags.len())?;
    for (vertex, flag) in flags.iter().enumerate() {
        if *flag {
            list.push(number(vertex)?)?;
        }
    }
    Ok(list)
}

impl Shared {
    pub fn of(alloc: Global, ranks: &Ranks) -> Result<Shared, AllocError>
        ensures { IfOk result (AreSharing ranks.now) }
    {
        let flags = flags(alloc, ranks)?;
        let list = list_of(alloc, &flags)?;
        Ok(Shared { flags, list })
    }

    /// Whether the vertex shares its rank.
    pub fn contains(&self, vertex: usize) -> bool
        requires { vertex < length self.now }
        ensures { result ≡ slice_index_or self.now vertex false }
    {
        self.flags[vertex]
    }

    /// The vertices that share their rank.
    pub fn list(&self) -> &[u32]
        ensures { AreListed self.now result.now }
    {
        &self.list
    }
}
