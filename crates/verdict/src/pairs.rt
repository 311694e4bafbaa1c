//! Where cycles were found before.

use crate::types::Verdict;
use hist_types::types::{Level, Phenomenon};
use txn_pairs::types::Txn;

/// Two transactions, by their places.
#[derive(Clone, Copy)]
pub struct Pair {
    pub one: usize,
    pub other: usize,
}

/// For each phenomenon that cycles show, where to look for one first. Whether there is one isn't
/// known.
#[derive(Clone, Copy)]
pub struct Pairs {
    g0: Option<Pair>,
    g1c: Option<Pair>,
    single: Option<Pair>,
    item: Option<Pair>,
}

/// The place of the transaction that this event invoked.
fn place_of(txns: &[Txn<'_>], invocation: u64) -> usize {
    txns.partition_point(|txn| txn.invocation() < invocation)
}

/// The transactions of the verdict's cycle of the phenomenon, if these are two and the level is
/// plain.
fn pair_of(txns: &[Txn<'_>], verdict: &Verdict<'_>, phenomenon: Phenomenon) -> Option<Pair> {
    if verdict.level(phenomenon)? != Level::Plain {
        return None;
    }
    match verdict.witness(phenomenon)?.edges() {
        [first, second] => Some(Pair {
            one: place_of(txns, first.from()),
            other: place_of(txns, second.from()),
        }),
        _ => None,
    }
}

impl Pairs {
    /// Nowhere.
    pub const fn none() -> Self {
        Pairs {
            g0: None,
            g1c: None,
            single: None,
            item: None,
        }
    }

    /// Where the verdict has cycles of two transactions at the level plain, and of these
    /// transactions. No other cycle shows its phenomenon with fewer edges, and this one stays
    /// unless one of the two fails.
    pub fn of(txns: &[Txn<'_>], verdict: &Verdict<'_>) -> Self {
        Pairs {
            g0: pair_of(txns, verdict, Phenomenon::G0),
            g1c: pair_of(txns, verdict, Phenomenon::G1c),
            single: pair_of(txns, verdict, Phenomenon::GSingle),
            item: pair_of(txns, verdict, Phenomenon::G2Item),
        }
    }

    /// Where to look for this phenomenon first.
    pub fn get(&self, phenomenon: Phenomenon) -> Option<Pair> {
        match phenomenon {
            Phenomenon::G0 => self.g0,
            Phenomenon::G1c => self.g1c,
            Phenomenon::GSingle => self.single,
            Phenomenon::G2Item => self.item,
        }
    }
}
