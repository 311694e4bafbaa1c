//! The command `check`.

ghost use Rattle.std.specs.Prelude.{◌≡◌, List, IfOk, IfErr};
ghost use Rattle.hist_types.specs.Journal.{KeepsRules};
ghost use Rattle.hist_types.specs.Operations.{Operation};
ghost use Rattle.hist_types.specs.Reports.{names_phenomenon, IsVerdictOf};
ghost use Rattle.hist_types.specs.Transactions.{transactions_of};
ghost use Rattle.hist_types.specs.declared.types.KeyOrder.{KeyOrder};
ghost use Rattle.key_versions.specs.Kept.{AreKept};
ghost use Rattle.verdict.specs.KeyPieces.{IsNumberOfWorkers, IsMemoryOrThread};
ghost use Rattle.command_run.specs.Answers.{IsVerdict};
ghost use Rattle.command_run.specs.Statuses.{status_by};

use crate::answer::{Answer, Status};
use crate::tabling::table_and_order;
use hist_types::types::{Fault, Strict};
use journal_core::events::Events;
use key_versions::kept::KeptVersions;
use std::alloc::Global;
use std::hash::BuildHasher;
use std::sync::Wait;
use std::thread::Threads;
use txn_pairs::types::Txns;
use verdict::tables::Tables;
use verdict::types::Verdict;
use verdict::verdict_by_replay;
use verdict::wide::{NoGate, verdict_from_wide};

fn status_of(verdict: &Verdict<'_>) -> Status
    ensures { result ≡ status_by (names_phenomenon verdict.now) }
{
    match verdict.strict() {
        Strict::Refuted => Status::SomePhenomenon,
        Strict::Open => Status::NoPhenomenon,
    }
}

fn answer(verdict: Verdict<'_>) -> Answer
    ensures { (keys : KeyOrder) (events : List Operation)
        → IsVerdictOf keys events verdict.entry
        → IsVerdict keys events result.status result.printed.items }
{
    Answer {
        status: status_of(&verdict),
        printed: verdict.into_text(),
    }
}

/// What `check` prints of events that keep the rules, by n threads. No table of versions is made
/// where a replay shows that there is nothing to find. The only errors are out of memory and a
/// thread that couldn't be started.
pub fn report<'a, R: Threads + Wait + Sync, S: BuildHasher + Copy>(
    rt: &R,
    alloc: Global,
    workers: usize,
    events: &Events<'a>,
    txns: &Txns<'a>,
    kept: KeptVersions<'a, S>,
) -> Result<Answer, Fault>
    requires workers { IsNumberOfWorkers workers }
    requires rules { KeepsRules events.now }
    requires txns { txns.now ≡ transactions_of events.now }
    requires kept { AreKept txns.now kept }
    ensures ok { IfOk result (λ answer.
        IsVerdict kept.entry.keys events.now answer.status answer.printed.items) }
    ensures err { IfErr result IsMemoryOrThread }
{
    if let Some(verdict) = verdict_by_replay(alloc, events.len(), txns, &kept)? {
        return Ok(answer(verdict));
    }
    let (versions, order) = table_and_order(rt, alloc, workers, txns, kept)?;
    let tables = Tables::with_order(events, txns, &versions, order.as_ref());
    let verdict = verdict_from_wide(rt, alloc, &tables, workers, &NoGate)?;
    Ok(answer(verdict))
}
