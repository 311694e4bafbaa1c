//! The verdict of a history: everything that is reported of it, and its text.
//!
//! Of the public calls, only those whose names end in `_wide` may start threads.
#![tactic(auto)]

ghost use Rattle.std.specs.Prelude.{◌≡◌, List, IfOk, IfErr, IfSome, OnOk, OnErr};
ghost use Rattle.dep_edges.specs.Histories.{AreOfHistory};
ghost use Rattle.hist_types.specs.Operations.{Operation};
ghost use Rattle.hist_types.specs.Refusals.{memory_fault};
ghost use Rattle.key_versions.specs.Kept.{AreKept};
ghost use Rattle.verdict.specs.Tables.{AreBadReadsOf, AreTables, AreTablesOf, IsVerdictFor, keys_in};
ghost use Rattle.hist_types.specs.Pieces.{HasTaken, HasTakenInPart};
ghost use Rattle.hist_types.specs.Reports.{AreFindings, IsVerdictOf};
ghost use Rattle.hist_types.specs.Texts.{verdict_text};
ghost use Rattle.hist_types.specs.declared.types.KeyOrder.{KeyOrder};
ghost use Rattle.report_laws.specs.Explained.{RefutesExplanations};

pub mod analysis;
mod board;
mod changes;
mod known;
pub mod laws;
mod looks;
mod pairs;
pub mod tables;
pub mod types;
pub mod wide;

use crate::looks::findings_of;
use crate::tables::Tables;
use crate::types::{BadReads, Verdict};
use clean_order::replay::replays;
use dep_edges::deps::Deps;
use hist_types::device::{Failed, Sink};
use hist_types::types::{Fault, KeyOrder};
use hist_types::whole::write_all;
use journal_core::prefix::Prefix;
use key_versions::kept::KeptVersions;
use key_versions::versions;
use report_text::report::{Findings, VerdictReport};
use std::alloc::{AllocError, Global};
use std::hash::BuildHasher;
use txn_pairs::pair;
use txn_pairs::types::Txns;

/// What is known of bad reads.
fn bad_reads<'a>(deps: &Deps<'_, 'a>) -> BadReads<'a>
    ensures { AreBadReadsOf deps.now.txns result }
{
    BadReads {
        g1a: deps.g1a(),
        g1b: deps.g1b(),
        stray: deps.stray(),
    }
}

/// The verdict of this many events, which reports these findings and reads.
fn reported<'a>(
    alloc: Global,
    events: u64,
    txns: &Txns<'a>,
    findings: Findings<'a>,
    reads: BadReads<'a>,
) -> Result<Verdict<'a>, AllocError>
    ensures { (keys : KeyOrder)
        → AreFindings keys txns.now findings.entry → AreBadReadsOf txns.now reads.entry
        → IfOk result (IsVerdictFor keys events txns.now) }
{
    let BadReads { g1a, g1b, stray } = reads;
    let report = VerdictReport {
        prefix: events,
        txns: txns.as_slice().len() as u64,
        findings,
        g1a,
        g1b,
        stray,
    };
    Verdict::new(alloc, report)
}

/// The verdict of the events that the tables are of. It borrows the journal's blocks.
fn verdict_from<'a>(alloc: Global, tables: &Tables<'_, 'a>) -> Result<Verdict<'a>, AllocError>
    requires { AreTables tables.now }
    ensures { (events : List Operation) → AreTablesOf events tables.now
        → IfOk result (IsVerdictOf (keys_in tables.now) events) }
{
    let deps = Deps::of(alloc, tables.txns, tables.versions)?;
    let findings = findings_of(alloc, tables, &deps)?;
    reported(
        alloc,
        tables.events,
        tables.txns,
        findings,
        bad_reads(&deps),
    )
}

/// The verdict of this many events, if a replay of their transactions shows that there is nothing
/// to find. None says nothing. It borrows the journal's blocks.
///
/// Only memory can run out.
pub fn verdict_by_replay<'a, S: BuildHasher + Copy>(
    alloc: Global,
    events: u64,
    txns: &Txns<'a>,
    versions: &KeptVersions<'a, S>,
) -> Result<Option<Verdict<'a>>, Fault>
    requires history { AreOfHistory txns.now }
    requires versions { AreKept txns.now versions.now }
    ensures ok { IfOk result
        (λ verdict. IfSome verdict (IsVerdictFor versions.now.keys events txns.now)) }
    ensures err { IfErr result (λ fault. fault ≡ memory_fault) }
{
    if !replays(alloc, txns.as_slice(), versions)? {
        return Ok(None);
    }
    let reads = BadReads::none(0);
    Ok(Some(reported(alloc, events, txns, Findings::none(), reads)?))
}

/// The verdict of the events. It borrows the journal's blocks, and not the prefix. It doesn't
/// depend on the hasher.
///
/// Only memory can run out.
pub fn verdict<'a, S: BuildHasher + Copy>(
    alloc: Global,
    prefix: &Prefix<'a>,
    hasher: S,
    keys: KeyOrder,
) -> Result<Verdict<'a>, Fault>
    ensures ok { IfOk result (IsVerdictOf keys prefix.now) }
    // Where the verdict says refuted, no order explains the events; where it says open, that says
    // nothing.
    ensures strict { IfOk result (RefutesExplanations prefix.now) }
    ensures err { IfErr result (λ fault. fault ≡ memory_fault) }
{
    let events = prefix.as_events();
    // Called for its clause that the events keep the rules, which the proof cites.
    let _rules = prefix.events();
    let txns = pair(alloc, events)?;
    let versions = versions(alloc, &txns, hasher, keys)?;
    Ok(verdict_from(alloc, &Tables::new(events, &txns, &versions))?)
}

/// Hands the verdict's text to a sink, or a beginning of it where the sink fails. It takes no
/// memory.
pub fn write_verdict<T: Sink>(verdict: &Verdict<'_>, sink: &mut T) -> Result<(), Failed>
    ensures ok { OnOk result (HasTaken T.Sink sink.old sink.new (verdict_text verdict.now)) }
    ensures err { OnErr result
        (HasTakenInPart T.Sink sink.old sink.new (verdict_text verdict.now)) }
{
    write_all(sink, verdict.text())
}
