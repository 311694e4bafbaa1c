//! Laws of edges and of reads by version: the contracts of functions that do nothing.

ghost use Rattle.std.specs.Prelude.{List};
ghost use Rattle.hist_types.specs.Journal.{KeepsRules};
ghost use Rattle.hist_types.specs.Operations.{Operation};
ghost use Rattle.clean_order.specs.ByVersion.{AreJoinedByVersions, EdgesIntoRise, EdgesOutOfRise, AllEdgesRise};
ghost use Rattle.clean_order.specs.CleanReads.{CleanReadsSuffice};

/// Where keys are basic and the rules are kept, there are dependency edges from one node to another
/// exactly if the second one reads a version that the first one installs, or follows one that the
/// first one reads. So the edges into a node rise if its point is above those of all nodes on which
/// it so depends, and the edges out of it if its point is below those of all that so depend on it.
pub fn dependencies_by_version()
    ensures joined { (events : List Operation) → KeepsRules events → AreJoinedByVersions events }
    ensures into { (events : List Operation) → KeepsRules events → EdgesIntoRise events }
    ensures out { (events : List Operation) → KeepsRules events → EdgesOutOfRise events }
    ensures all { (events : List Operation) → KeepsRules events → AllEdgesRise events }
{}

/// Where the rules are kept, and each version that an ok transaction reads is nil, or was installed
/// by one that didn't fail, or was written by nobody, or by the transaction itself, no read is
/// aborted or intermediate.
pub fn clean_reads()
    ensures { (events : List Operation) → KeepsRules events → CleanReadsSuffice events }
{}
