//! What a report of a phenomenon means: laws over the definitions of histories, transactions and
//! phenomena. Each is the contract of a function that does nothing.
#![tactic(auto)]

ghost use Rattle.std.specs.Prelude.{List};
ghost use Rattle.hist_types.specs.Journal.{KeepsRules, events_of};
ghost use Rattle.hist_types.specs.Operations.{Operation};
ghost use Rattle.hist_types.specs.Reports.{Report, IsVerdictOf};
ghost use Rattle.hist_types.specs.declared.types.KeyOrder.{KeyOrder};
ghost use Rattle.report_laws.specs.Explained.{PhenomenaRefute, RefutesExplanations};

/// A history that keeps the rules and has a phenomenon, whether its keys are basic or sequential,
/// has no strict serial explanation: it isn't strictly serializable. Neither has a history, or a
/// prefix of a live run, whose verdict says refuted.
pub fn phenomena_refute()
    ensures phenomena { (keys : KeyOrder) (events : List Operation)
        → KeepsRules events → PhenomenaRefute keys events }
    ensures verdict { (keys : KeyOrder) (events : List Operation) (report : Report)
        → KeepsRules events → IsVerdictOf keys events report → RefutesExplanations events report }
    ensures run { (keys : KeyOrder) (blocks : List (List Operation)) (report : Report)
        → IsVerdictOf keys (events_of blocks) report
        → RefutesExplanations (events_of blocks) report }
{}
