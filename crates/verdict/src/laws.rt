//! Laws of verdicts.

ghost use Rattle.std.specs.Prelude.{List, ◌++◌};
ghost use Rattle.hist_types.specs.Journal.{KeepsRules, events_of};
ghost use Rattle.hist_types.specs.Operations.{Operation};
ghost use Rattle.hist_types.specs.declared.types.KeyOrder.{KeyOrder};
ghost use Rattle.report_laws.specs.Growing.{PhenomenaStay};
ghost use Rattle.verdict.specs.Staying.{RefutationStays};

/// A history that has a phenomenon has one whatever comes after it, so of a run that goes on no
/// report is ever taken back, and once a verdict says refuted, so does each later one. The report
/// may be another one: once an open transaction fails, the cycles through it are gone, but a read
/// of what it wrote is then a G1a.
pub fn monotone()
    ensures prefix { (keys : KeyOrder) (events more : List Operation)
        → KeepsRules (events ++ more) → PhenomenaStay keys events (events ++ more) }
    ensures run { (keys : KeyOrder) (blocks more : List (List Operation))
        → PhenomenaStay keys (events_of blocks) (events_of (blocks ++ more)) }
    ensures refuted { (keys : KeyOrder) (events more : List Operation)
        → KeepsRules (events ++ more) → RefutationStays keys events (events ++ more) }
    ensures refuted_run { (keys : KeyOrder) (blocks more : List (List Operation))
        → RefutationStays keys (events_of blocks) (events_of (blocks ++ more)) }
{}
