//! Verdicts.

ghost use Rattle.std.specs.Option.{option_copied};
ghost use Rattle.std.specs.Prelude.{◌≡◌, None, IfOk, option_map};
ghost use Rattle.hist_types.specs.Witness.{Finding as AFinding};
ghost use Rattle.hist_types.specs.Reports.{finding, strict_of};
ghost use Rattle.hist_types.specs.Texts.{verdict_text};

use cycle_show::types::Witness;
use dep_edges::types::BadRead;
use hist_types::types::{Level, Phenomenon, Strict};
use report_text::report::{Finding, VerdictReport};
use std::alloc::{AllocError, Global};
use std::marker::Model;

/// What is reported of bad reads.
#[derive(Drop)]
pub(crate) struct BadReads<'a> {
    /// The first read of what a failed transaction wrote.
    pub g1a: Option<BadRead<'a>>,
    /// The first read of what another transaction wrote over in itself.
    pub g1b: Option<BadRead<'a>>,
    /// How many reads returned a value that nobody wrote.
    pub stray: u64,
}

impl BadReads<'_> {
    /// No bad read, and so many stray ones.
    pub(crate) fn none(stray: u64) -> Self
        ensures g1a { result.g1a ≡ None }
        ensures g1b { result.g1b ≡ None }
        ensures stray { result.stray ≡ stray }
    {
        BadReads {
            g1a: None,
            g1b: None,
            stray,
        }
    }
}

/// Everything that is reported of a history, with its text. Keys and values are borrowed from the
/// journal's blocks.
pub struct Verdict<'a> {
    report: VerdictReport<'a>,
    text: Vec<u8>,
}

// Written out, as what is derived is repeated wherever one is dropped.
impl Drop for Verdict<'_> {
    fn drop(self) {
        let Verdict { report: _, text: _ } = self;
    }
}

impl<'a> Model for Verdict<'a> {
    ghost use Rattle.std.specs.Prelude.{◌≡◌};
    ghost use Rattle.hist_types.specs.Reports.{Report as AReport};
    ghost use Rattle.hist_types.specs.Texts.{verdict_text};

    ghost Value = { AReport };

    ghost view = { λ v. v.report };

    ghost invariant = { λ v. v.text.items ≡ verdict_text v.report };
}

impl<'a> Verdict<'a> {
    pub(crate) fn new(alloc: Global, report: VerdictReport<'a>) -> Result<Self, AllocError>
        ensures { IfOk result (λ verdict. verdict ≡ report.entry) }
    {
        let text = report.text(alloc)?;
        Ok(Verdict { report, text })
    }

    /// How many events it is of: the journal's first ones.
    pub fn prefix(&self) -> u64
        ensures { result ≡ self.now.prefix }
    {
        self.report.prefix
    }

    /// How many transactions these make.
    pub fn txns(&self) -> u64
        ensures { result ≡ self.now.txns }
    {
        self.report.txns
    }

    fn finding(&self, phenomenon: Phenomenon) -> Option<&Finding<'a>>
        ensures { option_copied result ≡ finding self.now.findings phenomenon }
    {
        let findings = &self.report.findings;
        match phenomenon {
            Phenomenon::G0 => findings.g0.as_ref(),
            Phenomenon::G1c => findings.g1c.as_ref(),
            Phenomenon::GSingle => findings.single.as_ref(),
            Phenomenon::G2Item => findings.item.as_ref(),
        }
    }

    /// The lowest level at which a cycle shows the phenomenon, or none.
    pub fn level(&self, phenomenon: Phenomenon) -> Option<Level>
        ensures { result
            ≡ option_map (λ (f : AFinding). f.level) (finding self.now.findings phenomenon) }
    {
        Some(self.finding(phenomenon)?.level)
    }

    /// A cycle that shows the phenomenon at its lowest level.
    pub fn witness(&self, phenomenon: Phenomenon) -> Option<&Witness<'a>>
        ensures { option_copied result
            ≡ option_map (λ (f : AFinding). f.walk) (finding self.now.findings phenomenon) }
    {
        Some(&self.finding(phenomenon)?.witness)
    }

    /// The first read of what a failed transaction wrote.
    pub fn g1a(&self) -> Option<&BadRead<'a>>
        ensures { option_copied result ≡ self.now.g1a }
    {
        self.report.g1a.as_ref()
    }

    /// The first read of what another transaction wrote over in itself.
    pub fn g1b(&self) -> Option<&BadRead<'a>>
        ensures { option_copied result ≡ self.now.g1b }
    {
        self.report.g1b.as_ref()
    }

    /// How many reads returned a value that nobody wrote.
    pub fn stray(&self) -> u64
        ensures { result ≡ self.now.stray }
    {
        self.report.stray
    }

    /// What it says of strict serializability.
    pub fn strict(&self) -> Strict
        ensures { result ≡ strict_of self.now }
    {
        self.report.strict()
    }

    /// The text, as `write_verdict` writes it.
    pub fn text(&self) -> &[u8]
        ensures { result.now ≡ verdict_text self.now }
    {
        &self.text
    }

    /// The same text, for one who needs no more than that.
    pub fn into_text(self) -> Vec<u8>
        ensures { result.items ≡ verdict_text self.entry }
    {
        let Verdict { report: _, text } = self;
        text
    }
}
