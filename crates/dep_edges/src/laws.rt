//! Laws of edges.

ghost use Rattle.std.specs.Prelude.{List};
ghost use Rattle.hist_types.specs.Edges.{dependency_edges, order_edges};
ghost use Rattle.hist_types.specs.Journal.{KeepsRules};
ghost use Rattle.hist_types.specs.Operations.{Operation};
ghost use Rattle.hist_types.specs.Phenomena.{g1a, g1b};
ghost use Rattle.hist_types.specs.declared.types.KeyOrder.{KeyOrder};
ghost use Rattle.hist_types.specs.declared.types.Level.{Level};
ghost use Rattle.report_laws.specs.Explained.{AlwaysGoForward, IsNoneIfExplained};

/// In each strict serial explanation of a history that keeps the rules, each dependency edge and
/// each order edge goes forward: both transactions are in the order, the first one before the
/// second one. A history that has an explanation has no G1a and no G1b. It rests on two rules of
/// the journal: a value is written once to a key, and nil never.
pub fn explained()
    ensures dependencies { (keys : KeyOrder) (events : List Operation)
        → KeepsRules events → AlwaysGoForward (dependency_edges keys) events }
    ensures order { (level : Level) (events : List Operation)
        → KeepsRules events → AlwaysGoForward (order_edges level) events }
    ensures g1a { (events : List Operation) → KeepsRules events → IsNoneIfExplained g1a events }
    ensures g1b { (events : List Operation) → KeepsRules events → IsNoneIfExplained g1b events }
{}
