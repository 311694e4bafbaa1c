//! The analysis that a seat keeps from one verdict to the next.

ghost use Rattle.std.specs.Prelude.{◌≡◌, [], IfSome, IfOk, IfErr};
ghost use Rattle.hist_types.specs.Journal.{KeepsRules};
ghost use Rattle.hist_types.specs.Refusals.{memory_fault};
ghost use Rattle.hist_types.specs.Reports.{IsVerdictOf};
ghost use Rattle.report_laws.specs.Explained.{RefutesExplanations};
ghost use Rattle.live_journal.specs.Keeping.{IsKeptOf};

use hist_types::types::{Fault, KeyOrder};
use journal_core::journal::Core;
use std::alloc::Global;
use std::hash::BuildHasher;
use std::marker::Model;
use verdict::analysis::Analysis;
use verdict::types::Verdict;

/// The analysis of the first blocks of a journal.
#[derive(Drop)]
pub struct Kept<'j, S: BuildHasher + Copy> {
    analysis: Analysis<'j, S>,
    /// How many blocks the analysis is of.
    blocks: usize,
}

impl<'j, S: BuildHasher + Copy> Model for Kept<'j, S> {
    ghost use Rattle.live_journal.specs.Keeping.{Kept as AKept};

    ghost Value = { AKept };

    ghost view = { λ k.
        record { keys = k.analysis.keys; events = k.analysis.events; blocks = k.blocks } };
}

impl<'j, S: BuildHasher + Copy> Kept<'j, S> {
    /// The analysis of no blocks.
    fn new(alloc: Global, hasher: S, keys: KeyOrder) -> Self
        ensures keys { result.keys ≡ keys }
        ensures events { result.events ≡ [] }
        ensures blocks { result.blocks ≡ 0 }
    {
        Kept {
            analysis: Analysis::new(alloc, hasher, keys),
            blocks: 0,
        }
    }

    /// The analysis of all blocks of a journal: the one that was kept, extended, or else a new one.
    /// The only error is out of memory.
    pub(crate) fn of_all(
        alloc: Global,
        journal: &Core<'j>,
        kept: Option<Self>,
        hasher: S,
        keys: KeyOrder,
    ) -> Result<Self, Fault>
        requires rules { KeepsRules journal.now.events }
        requires kept { IfSome kept (IsKeptOf keys journal.now.blocks) }
        ensures events { IfOk result (λ kept. kept.events ≡ journal.now.events) }
        ensures kept { IfOk result (IsKeptOf keys journal.now.blocks) }
        ensures err { IfErr result (λ fault. fault ≡ memory_fault) }
    {
        let begun = match kept {
            Some(kept) => kept,
            None => Kept::new(alloc, hasher, keys),
        };
        let Kept {
            mut analysis,
            blocks,
        } = begun;
        let all = journal.blocks();
        for number in blocks..all {
            analysis = analysis.extend(journal.block(number))?;
        }
        Ok(Kept {
            analysis,
            blocks: all,
        })
    }

    /// The verdict of the events that were analysed. The only error is out of memory. What it
    /// finds, the next verdict looks for first.
    pub(crate) fn verdict(&mut self) -> Result<Verdict<'j>, Fault>
        ensures same { self.new ≡ self.old }
        ensures ok { IfOk result (IsVerdictOf self.old.keys self.old.events) }
        ensures strict { IfOk result (RefutesExplanations self.old.events) }
        ensures err { IfErr result (λ fault. fault ≡ memory_fault) }
    {
        let verdict = self.analysis.verdict()?;
        self.analysis.look_first(&verdict);
        Ok(verdict)
    }
}
