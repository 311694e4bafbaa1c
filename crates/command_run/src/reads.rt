//! The command `reads`.

ghost use Rattle.std.specs.Prelude.{◌≡◌, IfOk, IfErr};
ghost use Rattle.hist_types.specs.Journal.{KeepsRules};
ghost use Rattle.hist_types.specs.Refusals.{memory_fault};
ghost use Rattle.hist_types.specs.Transactions.{transactions_of};
ghost use Rattle.key_versions.specs.Kept.{AreKept};
ghost use Rattle.command_run.specs.Answers.{Reports};
ghost use Rattle.command_line.specs.declared.types.Command.TheVariants.{Reads};

use crate::answer::{Answer, status_by};
use dep_edges::edges;
use hist_types::types::Fault;
use journal_core::events::Events;
use key_versions::kept::KeptVersions;
use report_text::report::ReadsReport;
use std::alloc::Global;
use std::hash::BuildHasher;
use txn_pairs::types::Txns;

/// What `reads` prints of events that keep the rules. The only error is out of memory.
pub fn report<'a, S: BuildHasher + Copy>(
    alloc: Global,
    events: &Events<'a>,
    txns: &Txns<'a>,
    kept: KeptVersions<'a, S>,
) -> Result<Answer, Fault>
    requires rules { KeepsRules events.now }
    requires txns { txns.now ≡ transactions_of events.now }
    requires kept { AreKept txns.now kept }
    ensures ok { IfOk result
        (λ answer. Reports Reads events.now answer.status answer.printed.items) }
    ensures err { IfErr result (λ fault. fault ≡ memory_fault) }
{
    let versions = kept.into_table(alloc, txns)?;
    let report = {
        let deps = edges(alloc, txns, &versions)?;
        ReadsReport {
            prefix: events.len(),
            txns: txns.as_slice().len() as u64,
            g1a: deps.g1a(),
            g1b: deps.g1b(),
            stray: deps.stray(),
        }
    };
    Ok(Answer {
        status: status_by(report.names_phenomenon()),
        printed: report.text(alloc)?,
    })
}
