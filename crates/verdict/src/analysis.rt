//! The kept analysis of blocks that come one after the other.

ghost use Rattle.std.specs.Prelude.{◌≡◌, [], ◌∷◌, ◌++◌, List, IfOk, OnOk, IfErr};
ghost use Rattle.std.specs.Bool.{OnTrue};
ghost use Rattle.hist_types.specs.Journal.{KeepsRulesAfter};
ghost use Rattle.hist_types.specs.Operations.{Operation};
ghost use Rattle.hist_types.specs.Refusals.{memory_fault};
ghost use Rattle.hist_types.specs.Reports.{AreFindings, IsVerdictOf, no_findings};
ghost use Rattle.hist_types.specs.Transactions.{transactions_of};
ghost use Rattle.op_block.specs.Contents.{operations_of};
ghost use Rattle.report_laws.specs.Explained.{RefutesExplanations};
ghost use Rattle.serial_points.specs.KeptPoints.{HasPoints};
ghost use Rattle.verdict.specs.Analysed.{AreBehind, AreTablesSoFar};

use crate::changes::{first_points, points_after, update_order, update_versions};
use crate::pairs::Pairs;
use crate::tables::Tables;
use crate::types::{BadReads, Verdict};
use crate::{reported, verdict_from};
use hist_types::types::{Fault, KeyOrder};
use key_versions::kept::KeptVersions;
use op_block::block::Block;
use op_view::op::OpView;
use order_frontier::thinning::Thinning;
use report_text::report::Findings;
use serial_points::kept::Points;
use std::alloc::{AllocError, Global};
use std::hash::BuildHasher;
use std::marker::Model;
use txn_pairs::pairing::Pairing;

/// The tables of events that keep the rules, to be extended by one event after the other.
struct TablesSoFar<'a, S: BuildHasher> {
    /// How many events were taken.
    events: u64,
    pairing: Pairing<'a>,
    versions: KeptVersions<'a, S>,
    order: Thinning,
    /// Where there are some, nothing is to be found.
    points: Option<Points>,
    /// Where the last verdict had cycles.
    pairs: Pairs,
}

// Written out, as what is derived is repeated wherever one is dropped.
impl<S: BuildHasher + Drop> Drop for TablesSoFar<'_, S> {
    fn drop(self) {
        let TablesSoFar {
            events: _,
            pairing: _,
            versions: _,
            order: _,
            points: _,
            pairs: _,
        } = self;
    }
}

impl<'a, S: BuildHasher + Copy> TablesSoFar<'a, S> {
    /// No event was taken yet.
    fn new(alloc: Global, hasher: S, keys: KeyOrder) -> Self
        ensures tables { AreTablesSoFar [] result }
        ensures keys { result.versions.keys ≡ keys }
    {
        TablesSoFar {
            events: 0,
            pairing: Pairing::new(alloc),
            versions: KeptVersions::new(alloc, hasher, keys),
            order: Thinning::new(alloc),
            points: first_points(alloc, keys),
            pairs: Pairs::none(),
        }
    }

    /// Takes the next event. Out of memory may leave it taken in part.
    fn take(&mut self, op: OpView<'a>) -> Result<(), AllocError>
        requires { (events : List Operation)
            × AreTablesSoFar events self.old × KeepsRulesAfter events (op ∷ []) }
        ensures tables { (events : List Operation)
            → AreTablesSoFar events self.old → KeepsRulesAfter events (op.entry ∷ [])
            → OnOk result (AreTablesSoFar (events ++ op.entry ∷ []) self.new) }
        ensures keys { OnOk result (self.new.versions.keys ≡ self.old.versions.keys) }
    {
        let place = self.pairing.take(self.events, op)?;
        self.events += 1;
        match place {
            Some(place) => self.update(place),
            None => Ok(()),
        }
    }

    /// Takes the transaction at this place, as the last event made it. Out of memory may leave it
    /// taken in part.
    fn update(&mut self, place: usize) -> Result<(), AllocError>
        requires { (events : List Operation) × (event : Operation)
            × AreBehind events event place self.old }
        ensures tables { (events : List Operation) (event : Operation)
            → AreBehind events event place self.old
            → OnOk result (AreTablesSoFar (events ++ event ∷ []) self.new) }
        ensures keys { OnOk result (self.new.versions.keys ≡ self.old.versions.keys) }
    {
        let txns = self.pairing.txns().as_slice();
        let txn = &txns[place];
        update_order(&mut self.order, txn)?;
        update_versions(&mut self.versions, place, txn)?;
        let points = self.points.take();
        self.points = points_after(points, txns, &self.versions, place)?;
        Ok(())
    }

    /// The verdict where these are points of the events: nothing is put together, and nothing is
    /// searched for.
    fn verdict_by_points(&self, alloc: Global, points: &Points) -> Result<Verdict<'a>, AllocError>
        ensures { (events : List Operation)
            → AreTablesSoFar events self.now → HasPoints events self.now.versions points.now
            → IfOk result (IsVerdictOf self.now.versions.keys events) }
    {
        // Called for its clauses, which the proof cites.
        points.find_nothing();
        let reads = BadReads::none(points.strays());
        let txns = self.pairing.txns();
        reported(alloc, self.events, txns, Findings::none(), reads)
    }

    /// The verdict by the tables, put together, and a search.
    fn verdict_by_search(&self, alloc: Global) -> Result<Verdict<'a>, AllocError>
        requires { (events : List Operation) × AreTablesSoFar events self.now }
        ensures { (events : List Operation)
            → AreTablesSoFar events self.now
            → IfOk result (IsVerdictOf self.now.versions.keys events) }
    {
        let txns = self.pairing.txns();
        let versions = self.versions.finish(alloc, txns)?;
        let tables = Tables {
            events: self.events,
            txns,
            versions: &versions,
            thinned: Some(self.order.order()),
            pairs: self.pairs,
        };
        verdict_from(alloc, &tables)
    }

    /// The verdict of the events.
    fn verdict(&self, alloc: Global) -> Result<Verdict<'a>, AllocError>
        requires { (events : List Operation) × AreTablesSoFar events self.now }
        ensures { (events : List Operation)
            → AreTablesSoFar events self.now
            → IfOk result (IsVerdictOf self.now.versions.keys events) }
    {
        match &self.points {
            Some(points) => self.verdict_by_points(alloc, points),
            None => self.verdict_by_search(alloc),
        }
    }
}

/// What is known of the events of some blocks, kept and extended by one block after the other, so
/// that a verdict of a run that goes on doesn't begin with the run's first event. It borrows the
/// blocks.
#[derive(Drop)]
pub struct Analysis<'a, S: BuildHasher> {
    alloc: Global,
    blocks: Vec<&'a Block>,
    tables: TablesSoFar<'a, S>,
}

impl<'a, S: BuildHasher> Model for Analysis<'a, S> {
    ghost use Rattle.verdict.specs.Analysed.{Analysed, events_of_blocks, AreTablesSoFar};

    ghost Value = { Analysed };

    ghost view = { λ a. record {
      keys = a.tables.versions.keys;
      events = events_of_blocks a.blocks.items;
    } };

    ghost invariant = { λ a. AreTablesSoFar (events_of_blocks a.blocks.items) a.tables };
}

impl<'a, S: BuildHasher + Copy> Analysis<'a, S> {
    /// The analysis of no block.
    pub fn new(alloc: Global, hasher: S, keys: KeyOrder) -> Self
        ensures keys { result.keys ≡ keys }
        ensures events { result.events ≡ [] }
    {
        Analysis {
            alloc,
            blocks: Vec::new(alloc),
            tables: TablesSoFar::new(alloc, hasher, keys),
        }
    }

    /// Adds a block that counts after those before it, in time for its micro-operations and for the
    /// points that they change. The only error is out of memory, and then the analysis is gone.
    pub fn extend(mut self, block: &'a Block) -> Result<Self, Fault>
        requires { KeepsRulesAfter self.events (operations_of block.now) }
        ensures events { IfOk result
            (λ next. next.events ≡ self.entry.events ++ operations_of block.now) }
        ensures keys { IfOk result (λ next. next.keys ≡ self.entry.keys) }
        ensures err { IfErr result (λ fault. fault ≡ memory_fault) }
    {
        for index in 0..block.len() {
            self.tables.take(OpView::of(block, index))?;
        }
        self.blocks.push(block)?;
        Ok(self)
    }

    /// Whether serialization points show that nothing is to be found, so that a verdict takes no
    /// search.
    pub fn has_points(&self) -> bool
        ensures { OnTrue result
            (AreFindings self.now.keys (transactions_of self.now.events) no_findings) }
    {
        match &self.tables.points {
            Some(points) => {
                // Called for its clause on findings, which the proof cites.
                points.find_nothing();
                true
            }
            None => false,
        }
    }

    /// Has a later verdict look first where this one, which is of these events or of fewer, has
    /// cycles. A cycle of two transactions at the level plain is then looked up, and no other one
    /// searched for, as long as neither of them fails.
    pub fn look_first(&mut self, verdict: &Verdict<'_>)
        ensures { self.new ≡ self.old }
    {
        let txns = self.tables.pairing.txns().as_slice();
        self.tables.pairs = Pairs::of(txns, verdict);
    }

    /// The verdict of the events, as `verdict` computes it from scratch. The analysis stays as it
    /// is, and no event is taken again. While it has points, there is nothing to do but write the
    /// text. Else what the events show is searched for anew, in time for all events.
    ///
    /// Only memory can run out.
    pub fn verdict(&self) -> Result<Verdict<'a>, Fault>
        ensures ok { IfOk result (IsVerdictOf self.now.keys self.now.events) }
        // Where the verdict says refuted, no order explains the events; where it says open, that
        // says nothing.
        ensures strict { IfOk result (RefutesExplanations self.now.events) }
        ensures err { IfErr result (λ fault. fault ≡ memory_fault) }
    {
        Ok(self.tables.verdict(self.alloc)?)
    }
}
