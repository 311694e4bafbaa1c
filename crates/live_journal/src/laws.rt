//! Laws of a row and its seats: the contracts of functions that do nothing.

ghost use Rattle.std.specs.Prelude.{◌≡◌, ◌≤◌, ℕ, List, [], length, Result};
ghost use Rattle.hist_types.specs.Handed.{HandsOver};
ghost use Rattle.hist_types.specs.Interleavings.{World, at_first, Step, IsOutcomeOf, AreAgreed, HaveRisingCalls, AreOthersAfterSeen, FindsNoOwnBlock, AllCount, AreJudged, IsOneHistory};
ghost use Rattle.hist_types.specs.LegalAnswers.{StampedBlock, row_events, counting_blocks};
ghost use Rattle.live_journal.specs.Callers.{Caller, AreCallersOf, HaveOneHistory, AreMadeBySteps};
ghost use Rattle.live_journal.specs.Seats.{Journal};
ghost use Rattle.hist_types.specs.Operations.{Operation};
ghost use Rattle.hist_types.specs.declared.types.Fault.{Fault};
ghost use Rattle.hist_types.specs.declared.types.KeyOrder.{KeyOrder};

/// Whatever steps seats take, each has seen a beginning of the row, each position of the row is an
/// own one of exactly one seat, and no two blocks of a seat have the same stamp. Where each block
/// that fills a cell counted after what its seat had seen, all blocks count, and the answers, by
/// how many blocks their seats had seen, are those of one sequential journal, each seat's in its
/// own order.
pub fn interleavings()
    ensures agreed { (keys : KeyOrder) (cells : ℕ) (steps : List Step) (w : World)
        → IsOutcomeOf keys cells at_first steps w → AreAgreed w }
    ensures room { (keys : KeyOrder) (cells : ℕ) (steps : List Step) (w : World)
        → IsOutcomeOf keys cells at_first steps w → length w.row ≤ cells }
    ensures stamps { (keys : KeyOrder) (cells : ℕ) (steps : List Step) (w : World)
        → IsOutcomeOf keys cells at_first steps w → HaveRisingCalls w.row }
    ensures history { (keys : KeyOrder) (cells : ℕ) (steps : List Step) (w : World)
        → IsOutcomeOf keys cells at_first steps w → AreJudged keys cells at_first steps
        → IsOneHistory keys cells w }
{}

/// After what a seat has seen no block is its own. So where a call finds its own block in the next
/// cell, this call has put it there.
pub fn found_blocks_are_anothers()
    ensures others { (keys : KeyOrder) (cells : ℕ) (steps : List Step) (w : World)
        → IsOutcomeOf keys cells at_first steps w → AreOthersAfterSeen w }
    ensures next { (keys : KeyOrder) (cells : ℕ) (steps : List Step) (w : World)
        → IsOutcomeOf keys cells at_first steps w → FindsNoOwnBlock w }
{}

/// What callers know of their calls and seats makes one history: all calls, in one order, are those
/// of one sequential journal, which has after each call just the blocks that the call's seat has
/// then seen. Steps of seats at one row give their answers.
pub fn callers_have_one_history()
    ensures history { (journal : Journal) (callers : List Caller)
        → AreCallersOf journal callers → HaveOneHistory journal callers }
    ensures steps { (journal : Journal) (callers : List Caller)
        → AreCallersOf journal callers → AreMadeBySteps journal callers }
{}

/// The blocks of a row that count have all of its events, and each of them counts after those
/// before it.
pub fn counting_blocks_have_all_events()
    ensures events { (blocks : List StampedBlock)
        → row_events (counting_blocks blocks) ≡ row_events blocks }
    ensures count { (blocks : List StampedBlock) → AllCount [] (counting_blocks blocks) }
{}

/// An import of a text hands over one thing: operations or a fault.
pub fn texts_hand_over_one_thing()
    ensures some { (text : List ℕ)
        → (handed : Result (List Operation) Fault) × HandsOver text handed }
    ensures one { (text : List ℕ) (handed other : Result (List Operation) Fault)
        → HandsOver text handed → HandsOver text other → handed ≡ other }
{}
