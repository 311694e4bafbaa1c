//! Laws of this crate's definitions: the contracts of functions that do nothing.

ghost use Rattle.std.specs.Prelude.{◌≡◌, ◌⊎◌, ◌↔◌, ◌<◌, ◌≤◌, List, [], ◌∷◌, ◌++◌, length, Contains};
ghost use Rattle.hist_types.specs.Edges.{Edge};
ghost use Rattle.hist_types.specs.Operations.{Operation};
ghost use Rattle.hist_types.specs.ThinnedOrder.{all_thinned_edges};
ghost use Rattle.hist_types.specs.Transactions.{transactions_of};
ghost use Rattle.hist_types.specs.declared.types.Level.{Level};
ghost use Rattle.hist_types.specs.declared.types.OpKind.TheVariants as kinds;
ghost use Rattle.history_laws.specs.OpenAtOnce.{most_open};
ghost use Rattle.order_frontier.specs.Predecessors.{AreFrontier};
ghost use Rattle.order_frontier.specs.Thinnings.{Thinned, IsThinningOf};
ghost use Rattle.order_frontier.specs.declared.types.Predecessor.{Predecessor};

/// A frontier has no more members than transactions were ever open at once.
pub fn frontiers_are_small()
    ensures { (events : List Operation) → (ps : List Predecessor)
        → AreFrontier (transactions_of events) ps
        → length ps ≤ most_open (transactions_of events) }
{}

/// The thinned edges to a transaction are settled when it is invoked: a later event adds none and
/// takes none away.
pub fn thinned_edges_stay()
    ensures { (events : List Operation) → (event : Operation) → (level : Level) → (e : Edge)
        → e.to < length events
        → Contains (all_thinned_edges level (transactions_of events)) e
        ↔ Contains (all_thinned_edges level (transactions_of (events ++ event ∷ []))) e }
{}

/// A fail, an info, and an event after which the transactions are as they were, change nothing of
/// the thinned order and of what is kept for it.
pub fn other_completions_change_nothing()
    ensures failed { (events : List Operation) → (event : Operation) → (s : Thinned)
        → IsThinningOf events s
        → (event.kind ≡ kinds.Fail) ⊎ (event.kind ≡ kinds.Info)
        → IsThinningOf (events ++ event ∷ []) s }
    ensures idle { (events : List Operation) → (event : Operation) → (s : Thinned)
        → IsThinningOf events s
        → transactions_of (events ++ event ∷ []) ≡ transactions_of events
        → IsThinningOf (events ++ event ∷ []) s }
{}
