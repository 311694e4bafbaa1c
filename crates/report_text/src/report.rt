//! What is reported of a history. Keys and values are borrowed from the journal's blocks.

ghost use Rattle.std.specs.Prelude.{◌≡◌, length};
ghost use Rattle.hist_types.specs.Edges.{dependency_edges};
ghost use Rattle.hist_types.specs.EdgeOrder.{in_order};
ghost use Rattle.hist_types.specs.Reports.{no_findings, names_cycle, names_read, strict_of};
ghost use Rattle.dep_edges.specs.Histories.{AreOfHistory};

use cycle_show::types::Witness;
use dep_edges::deps::Deps;
use dep_edges::types::BadRead;
use hist_types::types::{Level, Strict};
use std::marker::Model;

/// The lowest level of a phenomenon, with a witness there.
#[derive(Drop)]
pub struct Finding<'a> {
    pub level: Level,
    pub witness: Witness<'a>,
}

impl<'a> Model for Finding<'a> {
    ghost use Rattle.hist_types.specs.Witness.{Finding as AFinding};

    ghost Value = { AFinding };

    ghost view = { λ f. record { level = f.level; walk = f.witness } };
}

/// What is found of each phenomenon that cycles show.
#[derive(Drop)]
pub struct Findings<'a> {
    pub g0: Option<Finding<'a>>,
    pub g1c: Option<Finding<'a>>,
    pub single: Option<Finding<'a>>,
    pub item: Option<Finding<'a>>,
}

impl<'a> Model for Findings<'a> {
    ghost use Rattle.hist_types.specs.Reports.{Findings as SomeFindings};

    ghost Value = { SomeFindings };

    ghost view = { λ f. record { g0 = f.g0; g1c = f.g1c; single = f.single; item = f.item } };
}

impl<'a> Findings<'a> {
    /// Findings without any phenomenon.
    pub fn none() -> Self
        ensures { result ≡ no_findings }
    {
        Findings {
            g0: None,
            g1c: None,
            single: None,
            item: None,
        }
    }

    /// Whether a phenomenon is among the findings.
    pub fn has_cycle(&self) -> bool
        ensures { result ≡ names_cycle self.now }
    {
        self.g0.is_some() || self.g1c.is_some() || self.single.is_some() || self.item.is_some()
    }
}

/// Everything that a verdict reports.
pub struct VerdictReport<'a> {
    /// How many events there are.
    pub prefix: u64,
    /// How many transactions these make.
    pub txns: u64,
    pub findings: Findings<'a>,
    pub g1a: Option<BadRead<'a>>,
    pub g1b: Option<BadRead<'a>>,
    /// How many reads returned a value that nobody wrote.
    pub stray: u64,
}

// By hand: a derived drop is inlined at every exit, which slows the prover (CONTRIBUTING.md).
impl Drop for VerdictReport<'_> {
    fn drop(self) {
        let VerdictReport {
            prefix: _,
            txns: _,
            findings: _,
            g1a: _,
            g1b: _,
            stray: _,
        } = self;
    }
}

impl<'a> Model for VerdictReport<'a> {
    ghost use Rattle.hist_types.specs.Reports.{Report as AReport};

    ghost Value = { AReport };

    ghost view = { λ r. record {
      prefix = r.prefix;
      txns = r.txns;
      findings = r.findings;
      g1a = r.g1a;
      g1b = r.g1b;
      stray = r.stray;
    } };
}

impl VerdictReport<'_> {
    /// Whether the report refutes that the history is strictly serializable.
    pub fn strict(&self) -> Strict
        ensures { result ≡ strict_of self.now }
    {
        if self.findings.has_cycle() || self.g1a.is_some() || self.g1b.is_some() {
            Strict::Refuted
        } else {
            Strict::Open
        }
    }
}

/// What `reads` reports.
#[derive(Drop)]
pub struct ReadsReport<'a> {
    /// How many events there are.
    pub prefix: u64,
    /// How many transactions these make.
    pub txns: u64,
    pub g1a: Option<BadRead<'a>>,
    pub g1b: Option<BadRead<'a>>,
    /// How many reads returned a value that nobody wrote.
    pub stray: u64,
}

impl<'a> Model for ReadsReport<'a> {
    ghost use Rattle.hist_types.specs.Reports.{ReadsReport as AReport};

    ghost Value = { AReport };

    ghost view = { λ r. record {
      prefix = r.prefix;
      txns = r.txns;
      g1a = r.g1a;
      g1b = r.g1b;
      stray = r.stray;
    } };
}

impl ReadsReport<'_> {
    /// Whether the report names G1a or G1b.
    pub fn names_phenomenon(&self) -> bool
        ensures { result ≡ names_read self.now }
    {
        self.g1a.is_some() || self.g1b.is_some()
    }
}

/// What `edges` reports: the dependency edges of a history, in the order in which they are printed.
/// They are found one transaction after the other, as they are needed.
#[derive(Drop)]
pub struct EdgesReport<'d, 'v, 'a> {
    pub(crate) prefix: u64,
    pub(crate) txns: usize,
    pub(crate) deps: &'d Deps<'v, 'a>,
}

impl<'d, 'v, 'a> Model for EdgesReport<'d, 'v, 'a> {
    ghost use Rattle.std.specs.Prelude.{◌≡◌, length};
    ghost use Rattle.dep_edges.specs.Histories.{AreOfHistory};
    ghost use Rattle.hist_types.specs.Edges.{dependency_edges};
    ghost use Rattle.hist_types.specs.EdgeOrder.{in_order};
    ghost use Rattle.hist_types.specs.Reports.{EdgesReport as AReport};

    ghost Value = { AReport };

    ghost view = { λ r. record {
      prefix = r.prefix;
      txns = r.txns;
      edges = in_order (dependency_edges r.deps.now.table.keys r.deps.now.txns);
    } };

    ghost invariant = { λ r. AreOfHistory r.deps.now.txns × (r.txns ≡ length r.deps.now.txns) };
}

impl<'d, 'v, 'a> EdgesReport<'d, 'v, 'a> {
    /// A report of this many events and transactions.
    pub fn new(prefix: u64, txns: usize, deps: &'d Deps<'v, 'a>) -> Self
        requires history { AreOfHistory deps.now.txns }
        requires txns { txns ≡ length deps.now.txns }
        ensures { result ≡ record {
          prefix = prefix;
          txns = txns;
          edges = in_order (dependency_edges deps.now.table.keys deps.now.txns);
        } }
    {
        EdgesReport { prefix, txns, deps }
    }
}
