//! Serialization points, which show that a history has no cycle, and what it takes to keep them as
//! a history grows: laws over the definitions of transactions and edges. Each is the contract of a
//! function that does nothing.
#![tactic(auto)]

ghost use Rattle.std.specs.Prelude.{◌≡◌, ◌⊎◌, ℕ, List, [], ◌∷◌, ◌++◌};
ghost use Rattle.hist_types.specs.Journal.{KeepsRules};
ghost use Rattle.hist_types.specs.Operations.{Operation};
ghost use Rattle.hist_types.specs.Reports.{AreFindings, no_findings};
ghost use Rattle.hist_types.specs.Transactions.{Transaction, transactions_of};
ghost use Rattle.hist_types.specs.declared.types.KeyOrder.{KeyOrder};
ghost use Rattle.hist_types.specs.declared.types.OpKind.TheVariants.{Invoke, Fail, Info};
ghost use Rattle.clean_order.specs.Points.{ArePoints};
ghost use Rattle.serial_points.specs.ByPlace.{ListPoints, LookUpsSuffice};
ghost use Rattle.serial_points.specs.NextPoints.{PointsStay, WritesNothingRead, PointsMove};

mod advance;
mod bounds;
mod clean;
mod falls;
pub mod kept;
mod passing;
mod places;
mod propose_falls;
mod settling;
mod stepping;
mod steps;
mod strays;
mod users;
mod views;

/// Where transactions have points, no cycle shows any phenomenon at any level. No order edge has to
/// be looked at.
pub fn points_rule_out_cycles()
    ensures { (keys : KeyOrder) (ts : List Transaction) (point : ℕ → ℕ)
        → ArePoints keys ts point → AreFindings keys ts no_findings }
{}

/// Any list of numbers has the points of a history's transactions, by their places. The point at a
/// place is above those of the transaction's predecessors if it is above that of who wrote each
/// version that it reads, and above those of all that read a version that it follows.
pub fn points_by_place()
    ensures listed { (events : List Operation) → ListPoints events }
    ensures above { (events : List Operation) → KeepsRules events → LookUpsSuffice events }
{}

/// Points stay points after a fail, an info, or an invocation that writes nothing that was read.
/// After any event, where keys are basic and the rules are kept, others are points if they pass at
/// the event's transaction, at those that the event made nodes and at those whose points changed,
/// and if no other transaction's point rose.
pub fn points_after_an_event()
    ensures ended { (keys : KeyOrder) (events : List Operation) (event : Operation)
        → (event.kind ≡ Fail) ⊎ (event.kind ≡ Info) → PointsStay keys events event }
    ensures unread { (keys : KeyOrder) (events : List Operation) (event : Operation)
        → event.kind ≡ Invoke → WritesNothingRead (transactions_of events) event
        → PointsStay keys events event }
    ensures moved { (events : List Operation) (event : Operation)
        → KeepsRules (events ++ event ∷ []) → PointsMove events event }
{}
