//! Edges between transactions.

ghost use Rattle.std.specs.Prelude.{◌≡◌};
ghost use Rattle.std.specs.List.Sorted.{IsPermutation, IsSortedBy};
ghost use Rattle.std.specs.Ordering.{is_lt};
ghost use Rattle.hist_types.specs.EdgeOrder.{label_rank, label_cmp, edge_cmp};
ghost use Rattle.hist_types.specs.Phenomena.{is_ww, is_wr, is_rw, is_order};
ghost use Rattle.hist_types.specs.Witness.{dependencies_in};
ghost use Rattle.dep_edges.specs.Labels.{label_of, joined};

use op_view::atom::Atom;
use std::cmp::Ordering;
use std::marker::Model;

/// Why one transaction comes before another. Keys and values are borrowed from the journal's
/// blocks.
#[derive(Drop)]
pub enum Label<'a> {
    /// The second transaction installs a version after one of the first.
    Ww {
        key: Atom<'a>,
        earlier: Atom<'a>,
        later: Atom<'a>,
    },
    /// The second transaction reads a version of the first.
    Wr {
        key: Atom<'a>,
        value: Atom<'a>,
    },
    /// The second transaction installs a version after one that the first reads. None is nil.
    Rw {
        key: Atom<'a>,
        earlier: Option<Atom<'a>>,
        later: Atom<'a>,
    },
    /// The first transaction completed before the second was invoked by the same process, which has
    /// this number.
    Process {
        process: u64,
    },
    /// The first transaction completed at an event before the one that invoked the second.
    Realtime {
        completion: u64,
        invocation: u64,
    },
}

impl<'a> Label<'a> {
    /// A copy of the label.
    fn copy(&self) -> Label<'a>
        ensures { label_of result ≡ label_of self.now }
    {
        match self {
            Label::Ww {
                key,
                earlier,
                later,
            } => Label::Ww {
                key: key.copy(),
                earlier: earlier.copy(),
                later: later.copy(),
            },
            Label::Wr { key, value } => Label::Wr {
                key: key.copy(),
                value: value.copy(),
            },
            Label::Rw {
                key,
                earlier,
                later,
            } => Label::Rw {
                key: key.copy(),
                earlier: earlier.as_ref().map(|atom| atom.copy()),
                later: later.copy(),
            },
            Label::Process { process } => Label::Process { process: *process },
            Label::Realtime {
                completion,
                invocation,
            } => Label::Realtime {
                completion: *completion,
                invocation: *invocation,
            },
        }
    }

    /// Where the label's kind comes in the order of labels.
    fn rank(&self) -> u8
        ensures { result ≡ label_rank (label_of self.now) }
    {
        match self {
            Label::Ww { .. } => 0,
            Label::Wr { .. } => 1,
            Label::Rw { .. } => 2,
            Label::Process { .. } => 3,
            Label::Realtime { .. } => 4,
        }
    }

    /// The order of labels: by kind, then by key and first version.
    fn cmp(&self, other: &Label<'_>) -> Ordering
        ensures { result ≡ label_cmp (label_of self.now) (label_of other.now) }
    {
        match (self, other) {
            (
                Label::Ww { key, earlier, .. },
                Label::Ww {
                    key: other,
                    earlier: before,
                    ..
                },
            ) => key.cmp(other).then(earlier.cmp(before)),
            (
                Label::Wr { key, value },
                Label::Wr {
                    key: other,
                    value: before,
                },
            ) => key.cmp(other).then(value.cmp(before)),
            (
                Label::Rw { key, earlier, .. },
                Label::Rw {
                    key: other,
                    earlier: before,
                    ..
                },
            ) => key.cmp(other).then(earlier.cmp(before)),
            _ => self.rank().cmp(&other.rank()),
        }
    }
}

/// An edge from a transaction to another one, each by the index of its invocation.
#[derive(Drop)]
pub struct Edge<'a> {
    from: u64,
    to: u64,
    label: Label<'a>,
}

impl<'a> Model for Edge<'a> {
    ghost use Rattle.hist_types.specs.Edges.{Edge as AnEdge};
    ghost use Rattle.dep_edges.specs.Labels.{label_of};

    ghost Value = { AnEdge };

    ghost view = { λ e. record { from = e.from; to = e.to; label = label_of e.label } };
}

impl<'a> Edge<'a> {
    pub fn new(from: u64, to: u64, label: Label<'a>) -> Self
        ensures { result ≡ record { from = from; to = to; label = label_of label.entry } }
    {
        Edge { from, to, label }
    }

    pub fn from(&self) -> u64
        ensures { result ≡ self.now.from }
    {
        self.from
    }

    pub fn to(&self) -> u64
        ensures { result ≡ self.now.to }
    {
        self.to
    }

    pub fn label(&self) -> &Label<'a>
        ensures { label_of result.now ≡ self.now.label }
    {
        &self.label
    }

    /// Whether the second transaction installs a version after one of the first.
    pub fn is_ww(&self) -> bool
        ensures { result ≡ is_ww self.now }
    {
        matches!(self.label, Label::Ww { .. })
    }

    /// Whether the second transaction reads a version of the first.
    pub fn is_wr(&self) -> bool
        ensures { result ≡ is_wr self.now }
    {
        matches!(self.label, Label::Wr { .. })
    }

    /// Whether the second transaction installs a version after one that the first reads.
    pub fn is_rw(&self) -> bool
        ensures { result ≡ is_rw self.now }
    {
        matches!(self.label, Label::Rw { .. })
    }

    /// Whether the edge is an order edge: known from when transactions began and ended, and not
    /// from what they read and wrote.
    pub fn is_order(&self) -> bool
        ensures { result ≡ is_order self.now }
    {
        matches!(self.label, Label::Process { .. } | Label::Realtime { .. })
    }

    /// A copy of the edge.
    pub fn copy(&self) -> Edge<'a>
        ensures { result ≡ self.now }
    {
        Edge::new(self.from, self.to, self.label.copy())
    }

    /// The one order edge that takes the place of this one and another that follows it.
    pub fn joined(&self, next: &Edge<'a>) -> Edge<'a>
        ensures { result ≡ joined self.now next.now }
    {
        let label = match (&self.label, &next.label) {
            (Label::Realtime { completion, .. }, Label::Realtime { invocation, .. }) => {
                Label::Realtime {
                    completion: *completion,
                    invocation: *invocation,
                }
            }
            (label, _) => label.copy(),
        };
        Edge::new(self.from, next.to, label)
    }

    /// The order of edges: by their transactions, then by label.
    pub fn cmp(&self, other: &Edge<'_>) -> Ordering
        ensures { result ≡ edge_cmp self.now other.now }
    {
        let labels = self.label.cmp(&other.label);
        self.from
            .cmp(&other.from)
            .then(self.to.cmp(&other.to).then(labels))
    }
}

/// How many of the edges are dependency edges, and not order edges.
pub fn dependencies_in(edges: &[Edge<'_>]) -> usize
    ensures { result ≡ dependencies_in edges.now }
{
    edges.iter().filter(|edge| !edge.is_order()).count()
}

/// Puts edges in order.
pub fn sort_edges(edges: &mut Vec<Edge<'_>>)
    ensures permutation { IsPermutation edges.old.items edges.new.items }
    ensures sorted { IsSortedBy (λ a b. is_lt (edge_cmp a b)) edges.new.items }
{
    edges.sort_unstable_by(|a, b| a.cmp(b));
}
