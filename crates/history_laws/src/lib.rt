//! Laws of histories: what follows from the definitions of the journal, transactions, versions,
//! edges and phenomena. Each is the contract of a function that does nothing; the layers from
//! transactions to the verdict cite them.
#![tactic(auto)]

ghost use Rattle.std.specs.Prelude.{◌≡◌, ◌≤◌, ℕ, List, [], IsTrue, IsFalse, None, is_some, All, Contains};
ghost use Rattle.hist_types.specs.Edges.{Edge, dependency_edges, all_order_edges, order_edges};
ghost use Rattle.hist_types.specs.ThinnedOrder.{all_thinned_edges, thinned_edges};
ghost use Rattle.hist_types.specs.Journal.{KeepsRules, events_of};
ghost use Rattle.hist_types.specs.Lists.{HasExactly};
ghost use Rattle.history_laws.specs.Events.{GrowBlockByBlock, KeepRulesByParts, CompletesByNextEvent, EndsWithLastEvent};
ghost use Rattle.history_laws.specs.ReadsAndWrites.{ReadsFirst, WritesLast};
ghost use Rattle.history_laws.specs.OrderEdges.{AreSubEdges, LeaveNodes, LeadToNodes, HaveRealtimeTwins, OrderEdgesJoinAllPairs};
ghost use Rattle.history_laws.specs.EdgesInOrder.{Rise, HasOneAtItsPlace, HasAllDependenciesInOrder};
ghost use Rattle.history_laws.specs.Dependencies.{IsVersionPair, LabelsAreDependencies, IsDependency};
ghost use Rattle.history_laws.specs.ProcessPairs.{IsProcessStep, IsStepBetweenTwo};
ghost use Rattle.history_laws.specs.BadReads.{IsAbortedRead, IsIntermediateRead, SomeoneWrote, NobodyWrote, IsStrayRead, WriterDecidesG1a, WriterDecidesG1b, HasNoIntermediateWriter};
ghost use Rattle.history_laws.specs.Writers.{WriteWhatWasInvoked, WriteNoneTwice, HaveOneWriterEach, NoneBothInstalledAndIntermediate, InstallsOrWroteIntermediate, InstallsOneOfAKey};
ghost use Rattle.hist_types.specs.Operations.{Operation};
ghost use Rattle.hist_types.specs.Phenomena.{height, aborted_writers, aborted_reads, intermediate_reads, is_stray, stray_reads};
ghost use Rattle.hist_types.specs.EdgeOrder.{in_order};
ghost use Rattle.history_laws.specs.Times.{AreInvokedInOrder, CompletesLater, CompleteApart, CompleteBeforeNext};
ghost use Rattle.history_laws.specs.Paths.{IncludesAllOk, OrderEdgesArePaths};
ghost use Rattle.history_laws.specs.OpenAtOnce.{open_at, most_open, LimitsPredecessors};
ghost use Rattle.history_laws.specs.Walks.{WalksCarryToThinned, WalksCarryToOrder, WalksCarryUp};
ghost use Rattle.history_laws.specs.Shown.{IsMadeByCounts, ThinningKeepsIt, ThinnedEdgesShowIt, ThinningKeepsTheFewest, AnyEdgesShowItByAWayBack, FewEdgesShowItByAWayBack, ThinnedEdgesHaveAWayBack, IsThereWithAWitness, WalksHaveWitnesses, PhenomenaRise};
ghost use Rattle.hist_types.specs.Transactions.{Transaction, transactions_of, Version, external_reads, external_writes, writes, nodes};
ghost use Rattle.hist_types.specs.Versions.{process_pairs, version_pairs};
ghost use Rattle.hist_types.specs.declared.types.KeyOrder.{KeyOrder};
ghost use Rattle.hist_types.specs.declared.types.KeyOrder.TheVariants.{Basic, Sequential};
ghost use Rattle.hist_types.specs.declared.types.Level.{Level};
ghost use Rattle.hist_types.specs.declared.types.Level.TheVariants.{Process, Realtime};
ghost use Rattle.hist_types.specs.declared.types.Phenomenon.{Phenomenon};

/// A journal grows block by block, and its events keep its rules. Operations keep the rules if each
/// part of them does after the operations that come before it.
pub fn blocks_one_after_another()
    ensures push { (blocks : List (List Operation)) → GrowBlockByBlock blocks }
    ensures kept { (blocks : List (List Operation)) → KeepsRules (events_of blocks) }
    ensures parts { (events front rest : List Operation) → KeepRulesByParts events front rest }
{}

/// A completion is the next event of its process, where that is no invocation. A process has no
/// event after its last one.
pub fn events_of_a_process()
    ensures completion { (process index : ℕ) → CompletesByNextEvent process index }
    ensures last { (process : ℕ) → EndsWithLastEvent process }
{}

/// An external read has no write of its key before it in its transaction, and an external write
/// none after it.
pub fn external_reads_and_writes()
    ensures reads { (t : Transaction) → HasExactly (external_reads t) (ReadsFirst t.mops) }
    ensures writes { (t : Transaction) → HasExactly (external_writes t) (WritesLast t.mops) }
{}

/// Order edges are those of all pairs of which the second end is a node; their first end is one by
/// itself.
pub fn order_edges_between_nodes()
    ensures all { (level : Level) → AreSubEdges (order_edges level) (all_order_edges level) }
    ensures first { (level : Level) → LeaveNodes (order_edges level) }
    ensures second { (level : Level) → LeadToNodes (order_edges level) }
    ensures kept { (level : Level) (ts : List Transaction) → OrderEdgesJoinAllPairs level ts }
{}

/// What is ordered within a process is ordered in real time.
pub fn process_order_in_realtime()
    ensures { HaveRealtimeTwins (order_edges Process) (order_edges Realtime) }
{}

/// Thinning leaves edges out, and adds none.
pub fn thinned_among_order_edges()
    ensures nodes { (level : Level) → AreSubEdges (thinned_edges level) (order_edges level) }
    ensures all { (level : Level) → AreSubEdges (all_thinned_edges level) (all_order_edges level) }
{}

/// Transactions are listed in the order of their invocations. Each completes, if at all, after its
/// invocation, by an event that invokes none, and before its process invokes the next one.
pub fn transactions_in_time()
    ensures order { (events : List Operation) → AreInvokedInOrder (transactions_of events) }
    ensures later { (events : List Operation) → All CompletesLater (transactions_of events) }
    ensures apart { (events : List Operation) → CompleteApart (transactions_of events) }
    ensures process { (events : List Operation) → CompleteBeforeNext (transactions_of events) }
{}

/// In any set of nodes with all ok transactions in it, an order edge joins two nodes exactly where
/// a path of thinned edges leads from one to the other. The nodes of a history are such a set, and
/// so are all its transactions.
pub fn order_edges_are_thinned_paths()
    ensures paths { (level : Level) (events : List Operation) → OrderEdgesArePaths level events }
    ensures nodes { (ts : List Transaction) → IncludesAllOk ts (nodes ts) }
    ensures all { (ts : List Transaction) → IncludesAllOk ts ts }
{}

/// A walk over order edges and any other edges can be replaced by one with thinned edges instead,
/// and back, with the same counts of ww, wr and rw edges. So dependency edges with thinned edges
/// show exactly the phenomena that they show with all order edges.
pub fn thinning_keeps_phenomena()
    ensures thinned { (level : Level) (events : List Operation) → WalksCarryToThinned level events }
    ensures order { (level : Level) (ts : List Transaction) → WalksCarryToOrder level ts }
    ensures counts { (phenomenon : Phenomenon) → IsMadeByCounts phenomenon }
    ensures nodes { (phenomenon : Phenomenon) (level : Level) → ThinningKeepsIt phenomenon level }
    ensures history { (keys : KeyOrder) (phenomenon : Phenomenon) (level : Level)
        → ThinnedEdgesShowIt keys phenomenon level }
    ensures fewest { (keys : KeyOrder) (phenomenon : Phenomenon) (level : Level)
        → ThinningKeepsTheFewest keys phenomenon level }
{}

/// No transaction has more thinned predecessors in real time than transactions were ever open at
/// once, or more than one within its process.
pub fn thinning_leaves_few()
    ensures most { (ts : List Transaction) → (index : ℕ) → open_at index ts ≤ most_open ts }
    ensures realtime { LimitsPredecessors most_open (thinned_edges Realtime) }
    ensures process { LimitsPredecessors (λ ts. 1) (thinned_edges Process) }
    ensures all_realtime { LimitsPredecessors most_open (all_thinned_edges Realtime) }
    ensures all_process { LimitsPredecessors (λ ts. 1) (all_thinned_edges Process) }
{}

/// A phenomenon that is there at a level is there at each higher level.
pub fn levels_rise()
    ensures walks { (lower higher : Level)
        → height lower ≤ height higher → WalksCarryUp lower higher }
    ensures phenomena { (keys : KeyOrder) (lower higher : Level)
        → height lower ≤ height higher → PhenomenaRise keys lower higher }
{}

/// A phenomenon is there exactly where some edge of its kind has a way back from its second end to
/// its first, along the kinds of edges that the phenomenon allows. The closed walk has one
/// dependency edge more than the way back.
pub fn cycles_by_one_edge()
    ensures edges { (phenomenon : Phenomenon) → AnyEdgesShowItByAWayBack phenomenon }
    ensures few { (phenomenon : Phenomenon) → FewEdgesShowItByAWayBack phenomenon }
    ensures thinned { (keys : KeyOrder) (phenomenon : Phenomenon) (level : Level)
        → ThinnedEdgesHaveAWayBack keys phenomenon level }
{}

/// A phenomenon that is there at a level has a witness there, and a phenomenon with a witness is
/// there. Each walk that shows it has a witness with no more dependency edges.
pub fn phenomena_have_witnesses()
    ensures there { (keys : KeyOrder) (phenomenon : Phenomenon) (level : Level)
        → IsThereWithAWitness keys phenomenon level }
    ensures few { (keys : KeyOrder) (phenomenon : Phenomenon) (level : Level)
        → WalksHaveWitnesses keys phenomenon level }
{}

/// Edges in order rise, and are among those that were given: of edges that the order doesn't tell
/// apart there is one. All dependency edges of a history are there.
pub fn edges_in_order()
    ensures among { (es : List Edge) → (e : Edge) → Contains (in_order es) e → Contains es e }
    ensures places { (es : List Edge) → All (HasOneAtItsPlace (in_order es)) es }
    ensures rising { (es : List Edge) → Rise (in_order es) }
    ensures dependencies { (keys : KeyOrder) (events : List Operation)
        → HasAllDependenciesInOrder keys events }
{}

/// A pair of versions is known exactly where the earlier version is nil and a node installs the
/// later one, where one transaction reads the one and installs the other, or where keys are
/// sequential and a process went from the one to the other.
pub fn versions_by_membership()
    ensures { (keys : KeyOrder) (ts : List Transaction)
        → HasExactly (version_pairs keys ts) (IsVersionPair keys ts) }
{}

/// Where keys are sequential, a process goes from one version of a key to a later one exactly where
/// an ok transaction meets the later one, and of all that the process saw of the key before, the
/// earlier one came last. Then an ok transaction of the process read or wrote it by its last
/// micro-operation on the key, and the process saw nothing of the key between the two transactions.
/// Where keys are basic, no process orders any versions.
pub fn pairs_of_a_process()
    ensures steps { (ts : List Transaction)
        → HasExactly (process_pairs Sequential ts) (IsProcessStep ts) }
    ensures between_two { (ts : List Transaction)
        → HasExactly (process_pairs Sequential ts) (IsStepBetweenTwo ts) }
    ensures basic { (ts : List Transaction) → process_pairs Basic ts ≡ [] }
{}

/// A dependency edge joins two different nodes exactly where they install and read the versions of
/// its label: for a ww or an rw, a pair that is known.
pub fn edges_by_versions()
    ensures labels { (keys : KeyOrder) (ts : List Transaction) → LabelsAreDependencies keys ts }
    ensures edges { (keys : KeyOrder) (ts : List Transaction)
        → HasExactly (dependency_edges keys ts) (IsDependency keys ts) }
{}

/// Where the rules are kept, the transactions write what their invocations say, in the order of
/// these, and no version of a key is written twice, by two transactions or by one. A transaction
/// installs each version that it writes, or else writes the key again later, and the version is an
/// intermediate one; of each key it installs one version, and never nil.
pub fn versions_written_once()
    ensures invoked { (events : List Operation) → KeepsRules events → WriteWhatWasInvoked events }
    ensures once { (events : List Operation) → KeepsRules events → WriteNoneTwice events }
    ensures one_writer { (events : List Operation) → KeepsRules events → HaveOneWriterEach events }
    ensures installed_or_intermediate { (t : Transaction) → InstallsOrWroteIntermediate t }
    ensures not_both { (events : List Operation)
        → KeepsRules events → NoneBothInstalledAndIntermediate events }
    ensures one_of_a_key { (t : Transaction) → InstallsOneOfAKey t }
    ensures not_nil { (t : Transaction) → (v : Version) → IsTrue (writes t v) → ¬ (v.value ≡ None) }
{}

/// Aborted, intermediate and stray reads by who wrote the version that is read.
pub fn bad_reads_by_writer()
    ensures aborted { (ts : List Transaction) → HasExactly (aborted_reads ts) (IsAbortedRead ts) }
    ensures intermediate { (ts : List Transaction)
        → HasExactly (intermediate_reads ts) (IsIntermediateRead ts) }
    ensures stray { (ts : List Transaction) → HasExactly (stray_reads ts) (IsStrayRead ts) }
{}

/// Where the rules are kept, the one transaction that wrote a version decides what a read of it is;
/// where nobody wrote it, the read is stray, unless it returned nil.
pub fn writer_decides()
    ensures aborted { (events : List Operation) → KeepsRules events → WriterDecidesG1a events }
    ensures intermediate { (events : List Operation) → KeepsRules events → WriterDecidesG1b events }
    ensures not_stray { (ts : List Transaction) (v : Version)
        → SomeoneWrote ts v → IsFalse (is_stray ts v) }
    ensures none_aborted { (ts : List Transaction) (v : Version)
        → NobodyWrote ts v → aborted_writers ts v ≡ [] }
    ensures none_intermediate { (ts : List Transaction) (v : Version)
        → NobodyWrote ts v → HasNoIntermediateWriter ts v }
    ensures stray { (ts : List Transaction) (v : Version)
        → NobodyWrote ts v → is_stray ts v ≡ is_some v.value }
{}
