//! Kinds of edges.

ghost use Rattle.std.specs.Prelude.{◌≡◌};
ghost use Rattle.dep_edges.specs.Labels.{label_of};
ghost use Rattle.edge_graph.specs.Kinds.{includes, kinds_of};

use dep_edges::edge::Label;
use hist_types::types::Level;

/// Kinds of edges: some kinds of dependencies, and the order edges of a level.
#[derive(Clone, Copy, Debug, PartialEq, Eq)]
pub struct Kinds {
    pub ww: bool,
    pub wr: bool,
    pub rw: bool,
    pub level: Level,
}

impl Kinds {
    /// The kinds of these dependencies and of the order edges of the level.
    pub fn of(dependencies: Dependencies, level: Level) -> Self
        ensures { result ≡ kinds_of dependencies level }
    {
        let (ww, wr, rw) = match dependencies {
            Dependencies::None => (false, false, false),
            Dependencies::Ww => (true, false, false),
            Dependencies::Wr => (false, true, false),
            Dependencies::Rw => (false, false, true),
            Dependencies::WrAndWw => (true, true, false),
            Dependencies::All => (true, true, true),
        };
        Kinds { ww, wr, rw, level }
    }

    /// Whether an edge with this label is of the kinds; an order edge always is.
    pub fn includes(self, label: &Label<'_>) -> bool
        ensures { result ≡ includes self (label_of label.now) }
    {
        match label {
            Label::Ww { .. } => self.ww,
            Label::Wr { .. } => self.wr,
            Label::Rw { .. } => self.rw,
            Label::Process { .. } | Label::Realtime { .. } => true,
        }
    }
}

/// The kinds of dependencies that a search goes over.
#[derive(Clone, Copy, Debug, PartialEq, Eq)]
pub enum Dependencies {
    /// The search goes over the order alone.
    None,
    Ww,
    Wr,
    Rw,
    WrAndWw,
    All,
}
