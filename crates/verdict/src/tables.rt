//! What verdicts are made from.

ghost use Rattle.std.specs.Prelude.{◌≡◌, IfSome};
ghost use Rattle.hist_types.specs.Journal.{KeepsRules};
ghost use Rattle.hist_types.specs.Transactions.{transactions_of};
ghost use Rattle.key_versions.specs.Tables.{IsTableOf};
ghost use Rattle.order_frontier.specs.Predecessors.{IsThinnedOrder};
ghost use Rattle.verdict.specs.Tables.{AreTablesOf, keys_in};

use crate::pairs::Pairs;
use journal_core::events::Events;
use key_versions::table::Versions;
use order_frontier::types::Order;
use txn_pairs::types::Txns;

/// What a verdict of some events is made from.
#[derive(Drop)]
pub struct Tables<'t, 'a> {
    /// How many events there are.
    pub events: u64,
    pub txns: &'t Txns<'a>,
    /// The versions that the transactions name.
    pub versions: &'t Versions<'a>,
    /// The thinned order, if it was kept or made already. Else it is thinned where a search needs
    /// it.
    pub thinned: Option<&'t Order>,
    /// Where cycles are looked for first.
    pub pairs: Pairs,
}

impl<'t, 'a> Tables<'t, 'a> {
    /// By the events' transactions, and the versions that these name.
    pub fn new(events: &Events<'a>, txns: &'t Txns<'a>, versions: &'t Versions<'a>) -> Self
        requires rules { KeepsRules events.now }
        requires txns { txns.now ≡ transactions_of events.now }
        requires versions { IsTableOf versions.now.keys txns.now versions.now }
        ensures tables { AreTablesOf events.now result }
        ensures keys { keys_in result ≡ versions.now.keys }
    {
        Tables {
            events: events.len(),
            txns,
            versions,
            thinned: None,
            pairs: Pairs::none(),
        }
    }

    /// The same with the thinned order, where it was made already.
    pub fn with_order(
        events: &Events<'a>,
        txns: &'t Txns<'a>,
        versions: &'t Versions<'a>,
        thinned: Option<&'t Order>,
    ) -> Self
        requires rules { KeepsRules events.now }
        requires txns { txns.now ≡ transactions_of events.now }
        requires versions { IsTableOf versions.now.keys txns.now versions.now }
        requires thinned { IfSome thinned (λ order. IsThinnedOrder txns.now order.now) }
        ensures tables { AreTablesOf events.now result }
        ensures keys { keys_in result ≡ versions.now.keys }
    {
        Tables {
            events: events.len(),
            txns,
            versions,
            thinned,
            pairs: Pairs::none(),
        }
    }
}
