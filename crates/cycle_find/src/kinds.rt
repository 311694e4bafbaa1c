//! Which dependencies the closed walks of a phenomenon use.

ghost use Rattle.std.specs.Prelude.{◌≡◌};
ghost use Rattle.std.specs.Bool.{OnTrue};
ghost use Rattle.edge_graph.specs.Kinds.{AreAmong};
ghost use Rattle.cycle_find.specs.Dependencies as walks;

use edge_graph::types::{Dependencies, Kinds};
use hist_types::types::{Level, Phenomenon};

/// The kind of edge that the phenomenon cannot do without.
pub(crate) fn needed(phenomenon: Phenomenon) -> Dependencies
    ensures { result ≡ walks.needed phenomenon }
{
    match phenomenon {
        Phenomenon::G0 => Dependencies::Ww,
        Phenomenon::G1c => Dependencies::Wr,
        Phenomenon::GSingle | Phenomenon::G2Item => Dependencies::Rw,
    }
}

/// What the way back from that edge's second end to its first may use.
pub(crate) fn way_back(phenomenon: Phenomenon) -> Dependencies
    ensures { result ≡ walks.way_back phenomenon }
{
    match phenomenon {
        Phenomenon::G0 => Dependencies::Ww,
        Phenomenon::G1c | Phenomenon::GSingle => Dependencies::WrAndWw,
        Phenomenon::G2Item => Dependencies::All,
    }
}

/// The ww and wr edges among those.
pub(crate) fn direct_back(phenomenon: Phenomenon) -> Dependencies
    ensures { result ≡ walks.direct_back phenomenon }
{
    match phenomenon {
        Phenomenon::G0 => Dependencies::Ww,
        Phenomenon::G1c | Phenomenon::GSingle | Phenomenon::G2Item => Dependencies::WrAndWw,
    }
}

/// What the whole closed walk may use.
pub(crate) fn whole(phenomenon: Phenomenon) -> Dependencies
    ensures { result ≡ walks.whole phenomenon }
{
    match phenomenon {
        Phenomenon::G0 => Dependencies::Ww,
        Phenomenon::G1c => Dependencies::WrAndWw,
        Phenomenon::GSingle | Phenomenon::G2Item => Dependencies::All,
    }
}

/// What it may use besides the kind of edge of which it needs one.
pub(crate) fn others(phenomenon: Phenomenon) -> Dependencies
    ensures { result ≡ walks.others phenomenon }
{
    match phenomenon {
        Phenomenon::G0 => Dependencies::None,
        Phenomenon::G1c => Dependencies::Ww,
        Phenomenon::GSingle | Phenomenon::G2Item => Dependencies::WrAndWw,
    }
}

/// Whether the whole closed walk uses these dependencies alone.
pub(crate) fn uses_only(phenomenon: Phenomenon, dependencies: Dependencies) -> bool
    ensures { OnTrue result (AreAmong (walks.whole phenomenon) dependencies) }
{
    let used = Kinds::of(whole(phenomenon), Level::Plain);
    let given = Kinds::of(dependencies, Level::Plain);
    (given.ww || !used.ww) && (given.wr || !used.wr) && (given.rw || !used.rw)
}
