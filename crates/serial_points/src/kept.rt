//! Serialization points, kept while a run goes on.

ghost use Rattle.std.specs.Prelude.{◌≡◌, ◌++◌, ◌∷◌, [], List, IfOk, IfSome};
ghost use Rattle.hist_types.specs.Operations.{Operation};
ghost use Rattle.hist_types.specs.Phenomena.{stray};
ghost use Rattle.hist_types.specs.Transactions.{transactions_of};
ghost use Rattle.hist_types.specs.Reports.{AreFindings, no_findings};
ghost use Rattle.key_versions.specs.Kept.{KeptVersions as Kept, AreKept};
ghost use Rattle.clean_order.specs.CleanReads.{HasNoBadRead};
ghost use Rattle.serial_points.specs.KeptPoints.{HasPoints, IsNext};

use crate::advance::{add_users, advance};
use crate::propose_falls::Proposal;
use crate::steps::Steps;
use crate::strays::strays_after;
use crate::users::Users;
use crate::views::{LiveRun, PointsView};
use hist_types::types::KeyOrder;
use key_versions::kept::KeptVersions;
use std::alloc::{AllocError, Global};
use std::hash::BuildHasher;
use std::marker::Model;
use txn_pairs::types::Txn;

/// A serialization point for each transaction of a run, by place. Where a run has points, its
/// verdict is known: nothing was found. They are kept from one event to the next, in time for what
/// the event's transaction reads and writes, and for the points that fall; where they can't be,
/// they are given up. Stray reads are counted.
#[derive(Drop)]
pub struct Points {
    alloc: Global,
    points: Vec<u64>,
    users: Users,
    steps: Steps,
    strays: u64,
    proposal: Proposal,
}

impl Model for Points {
    ghost use Rattle.serial_points.specs.KeptPoints.{KeptPoints};

    ghost Value = { KeptPoints };

    ghost view = { λ p. record {
      basic = record { points = p.points.items; users = p.users; strays = p.strays };
      steps = p.steps;
    } };
}

impl Points {
    /// The points of no events, for such keys. The only error is out of memory.
    pub fn new(alloc: Global, keys: KeyOrder) -> Result<Self, AllocError>
        ensures { (kept : Kept) → AreKept [] kept → IfOk result (HasPoints [] kept) }
    {
        Ok(Points {
            alloc,
            points: Vec::new(alloc),
            users: Users::new(alloc),
            steps: Steps::new(alloc, keys)?,
            strays: 0,
            proposal: Proposal::new(alloc),
        })
    }

    /// Points of one event more, which began or completed the transaction at the place. None if
    /// they are given up: then there may be points or not. The only error is out of memory.
    pub fn after<'a, S: BuildHasher + Copy>(
        self,
        txns: &[Txn<'a>],
        versions: &KeptVersions<'a, S>,
        place: usize,
    ) -> Result<Option<Self>, AllocError>
        requires { (events : List Operation) × (event : Operation) × (before : Kept)
            × IsNext events event before self txns.now versions.now place }
        ensures { (events : List Operation) (event : Operation) (before : Kept)
            → IsNext events event before self txns.now versions.now place
            → IfOk result (λ next. IfSome next (HasPoints (events ++ event ∷ []) versions.now)) }
    {
        let Points {
            alloc,
            mut points,
            mut users,
            steps,
            strays,
            mut proposal,
        } = self;
        let steps = steps.after(txns, versions, place)?;
        let run = LiveRun::new(txns, versions, &steps.lists);
        add_users(&mut users, &run, place)?;
        proposal.search(&users, &run, place)?;
        let falls = proposal.falls();
        if !advance(&mut points, &mut users, &run, falls, place)? {
            return Ok(None);
        }
        if !PointsView::new(points.as_slice(), &users, &run).steps_pass(falls, place) {
            return Ok(None);
        }
        let Some(strays) = strays_after(strays, &users.writers, &run, place) else {
            return Ok(None);
        };
        Ok(Some(Points {
            alloc,
            points,
            users,
            steps,
            strays,
            proposal,
        }))
    }

    /// How many reads are stray.
    pub fn strays(&self) -> u64
        ensures { result ≡ self.now.basic.strays }
    {
        self.strays
    }

    /// Where a history has points, no phenomenon was found, no read is bad, and it is known how
    /// many are stray.
    pub fn find_nothing(&self)
        ensures findings { (events : List Operation) (kept : Kept)
            → HasPoints events kept self.now
            → AreFindings kept.keys (transactions_of events) no_findings }
        ensures reads { (events : List Operation) (kept : Kept)
            → HasPoints events kept self.now → HasNoBadRead (transactions_of events) }
        ensures stray { (events : List Operation) (kept : Kept)
            → HasPoints events kept self.now
            → stray (transactions_of events) ≡ self.now.basic.strays }
    {}
}
