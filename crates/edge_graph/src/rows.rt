//! The successors of each vertex, in flat lists (compressed sparse rows).

ghost use Rattle.std.specs.Prelude.{◌≡◌, ◌<◌, ◌≤◌, length, slice_range, IfOk};
ghost use Rattle.edge_graph.specs.FlatRows.{row_at, led_to, rows_in, AreRowBounds};

use crate::types::Dependencies;
use std::alloc::AllocError;
use std::marker::Model;

/// The dependencies that a search follows, and the parts of rows that have what they lead to.
#[derive(Drop)]
pub(crate) struct Followed {
    dependencies: Dependencies,
    /// The first part of a transaction's row that is followed.
    first: usize,
    /// The first part after the ones that are followed.
    last: usize,
    /// Whether a version's part is followed.
    from_versions: bool,
}

impl Model for Followed {
    ghost use Rattle.std.specs.Prelude.{◌≡◌};
    ghost use Rattle.edge_graph.specs.FlatRows.{first_part, last_part, leave_versions};
    ghost use Rattle.edge_graph.specs.declared.types.Dependencies.{Dependencies};

    ghost Value = { Dependencies };

    ghost view = { λ f. f.dependencies };

    ghost invariant = { λ f. (f.first ≡ first_part f.dependencies)
        × (f.last ≡ last_part f.dependencies)
        × (f.from_versions ≡ leave_versions f.dependencies) };
}

impl Followed {
    /// What a search follows by these dependencies.
    pub fn new(dependencies: Dependencies) -> Self
        ensures { result ≡ dependencies }
    {
        let (first, last, from_versions) = match dependencies {
            Dependencies::None => (0, 0, false),
            Dependencies::Ww => (2, 3, false),
            Dependencies::Wr => (1, 2, false),
            Dependencies::Rw => (0, 1, true),
            Dependencies::WrAndWw => (1, 3, false),
            Dependencies::All => (0, 3, true),
        };
        Followed {
            dependencies,
            first,
            last,
            from_versions,
        }
    }
}

/// A row for each vertex, in parts: for a transaction one for rw, then one for wr, then one for ww,
/// so that what may be followed is at its end. From versions only rw leads on, so that a version
/// has one part.
#[derive(Drop)]
pub(crate) struct Rows {
    txns: usize,
    versions: usize,
    /// Where the parts begin in the list, and where the last one ends.
    bounds: Vec<u32>,
    items: Vec<u32>,
}

impl Model for Rows {
    ghost use Rattle.std.specs.Prelude.{List};
    ghost use Rattle.edge_graph.specs.FlatRows.{Row, rows_in, AreRowBounds};

    ghost Value = { List Row };

    ghost view = { λ r. rows_in r.txns r.versions r.bounds.items r.items.items };

    ghost invariant = { λ r. AreRowBounds r.txns r.versions r.bounds.items r.items.items };
}

/// An index as a number of 32 bits. No memory holds more numbers than there are of these.
pub(crate) fn number(place: usize) -> Result<u32, AllocError>
    ensures { IfOk result (λ n. n ≡ place) }
{
    u32::try_from(place).map_err(|_| AllocError)
}

/// The items of a range.
fn between(items: &[u32], start: usize, end: usize) -> &[u32]
    requires rising { start ≤ end }
    requires within { end ≤ length items.now }
    ensures { result.now ≡ slice_range items.now start end }
{
    &items[start..end]
}

impl Rows {
    /// The rows between these bounds of the list.
    pub fn new(txns: usize, versions: usize, bounds: Vec<u32>, items: Vec<u32>) -> Self
        requires { AreRowBounds txns versions bounds.items items.items }
        ensures { result ≡ rows_in txns versions bounds.items items.items }
    {
        Rows {
            txns,
            versions,
            bounds,
            items,
        }
    }

    /// How many vertices there are.
    pub fn len(&self) -> usize
        ensures { result ≡ length self.now }
    {
        self.txns + self.versions
    }

    /// The successors of a vertex by these dependencies.
    pub fn row(&self, vertex: usize, followed: &Followed) -> &[u32]
        requires { vertex < length self.now }
        ensures { result.now ≡ led_to followed.now (row_at self.now vertex) }
    {
        let (first, last) = if vertex < self.txns {
            (3 * vertex + followed.first, 3 * vertex + followed.last)
        } else if followed.from_versions {
            let part = 2 * self.txns + vertex;
            (part, part + 1)
        } else {
            (0, 0)
        };
        let (start, end) = (self.bounds[first], self.bounds[last]);
        between(&self.items, start as usize, end as usize)
    }
}
