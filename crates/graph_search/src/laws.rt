//! What ranks and numbers say of walks: the contracts of functions that do nothing.

ghost use Rattle.std.specs.Prelude.{◌≡◌, ℕ, ◌<◌, ◌≤◌, List, All, slice_index};
ghost use Rattle.graph_search.specs.Costs.{BoundsWalks, LeadsWithin, not_above};
ghost use Rattle.graph_search.specs.Graphs.{Graph, VertexSet, HasArc, HasArcInto, AreRanks, IsWalk, of_rank};

/// Ranks don't fall along a walk, so all of it is between the ranks of its ends.
pub fn walks_keep_or_raise_the_rank()
    ensures ends { (g : Graph) (ranks walk : List ℕ) (from to : ℕ) → AreRanks g ranks
        → IsWalk (HasArc g) from to walk → slice_index ranks from ≤ slice_index ranks to }
    ensures least { (g : Graph) (ranks walk : List ℕ) (from to : ℕ) → AreRanks g ranks
        → IsWalk (HasArc g) from to walk
        → All (λ v. slice_index ranks from ≤ slice_index ranks v) walk }
    ensures most { (g : Graph) (ranks walk : List ℕ) (from to : ℕ) → AreRanks g ranks
        → IsWalk (HasArc g) from to walk
        → All (λ v. slice_index ranks v ≤ slice_index ranks to) walk }
{}

/// All vertices of a closed walk have one rank. So an arc of a closed walk leads to a vertex of its
/// own rank.
pub fn closed_walks_keep_their_rank()
    ensures walk { (g : Graph) (ranks walk : List ℕ) (v : ℕ) → AreRanks g ranks
        → IsWalk (HasArc g) v v walk → All (λ w. slice_index ranks w ≡ slice_index ranks v) walk }
    ensures arc { (g : Graph) (ranks walk : List ℕ) (v w : ℕ) → AreRanks g ranks → HasArc g v w
        → IsWalk (HasArc g) w v walk → slice_index ranks w ≡ slice_index ranks v }
{}

/// A walk between vertices of one rank enters no other rank, so a search for it needs to enter no
/// other.
pub fn one_rank_is_enough()
    ensures inside { (g : Graph) (ranks walk : List ℕ) (from to : ℕ) → AreRanks g ranks
        → slice_index ranks from ≡ slice_index ranks to → IsWalk (HasArc g) from to walk
        → IsWalk (HasArcInto g (of_rank ranks (slice_index ranks to))) from to walk }
    ensures outside { (g : Graph) (allowed : VertexSet) (walk : List ℕ) (from to : ℕ)
        → IsWalk (HasArcInto g allowed) from to walk → IsWalk (HasArc g) from to walk }
{}

/// A walk that costs at most n costs at most any greater number, and is also a walk over more arcs.
pub fn walks_that_may_cost_more()
    ensures most { (free paid : Graph) (most more from to : ℕ) (rest : List ℕ) → most ≤ more
        → LeadsWithin (HasArc free) (HasArc paid) most from rest to
        → LeadsWithin (HasArc free) (HasArc paid) more from rest to }
    ensures arcs { (free paid free' paid' : Graph) (most from to : ℕ) (rest : List ℕ)
        → ((v w : ℕ) → HasArc free v w → HasArc free' v w)
        → ((v w : ℕ) → HasArc paid v w → HasArc paid' v w)
        → LeadsWithin (HasArc free) (HasArc paid) most from rest to
        → LeadsWithin (HasArc free') (HasArc paid') most from rest to }
{}

/// Where numbers bound walks, a cheap walk begins and stays at vertices whose number isn't above
/// its end. So a search for such a walk needs to enter no other vertices.
pub fn cheap_walks_stay_below()
    ensures begins { (free paid : Graph) (places most top from to : ℕ) (numbers rest : List ℕ)
        → BoundsWalks (HasArc free) (HasArc paid) places most numbers → to < places → to ≤ top
        → LeadsWithin (HasArc free) (HasArc paid) most from rest to
        → slice_index numbers from ≤ top }
    ensures stays { (free paid : Graph) (places most top from to : ℕ) (numbers rest : List ℕ)
        → BoundsWalks (HasArc free) (HasArc paid) places most numbers → to < places → to ≤ top
        → LeadsWithin (HasArc free) (HasArc paid) most from rest to
        → LeadsWithin (HasArcInto free (not_above numbers top))
        (HasArcInto paid (not_above numbers top)) most from rest to }
{}
