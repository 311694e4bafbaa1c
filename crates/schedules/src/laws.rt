//! Laws of schedules: the contracts of functions that do nothing.

ghost use Rattle.std.specs.Prelude.{List, Bool, IsTrue};
ghost use Rattle.hist_types.specs.Transactions.{Transaction};
ghost use Rattle.hist_types.specs.declared.types.KeyOrder.{KeyOrder};
ghost use Rattle.schedules.specs.Cycles.{CyclesPivot, HasNoneRuledOut};
ghost use Rattle.schedules.specs.Schedules.{Schedule, Keeps, IsSerial};
ghost use Rattle.schedules.specs.declared.types.EdgeKinds.{EdgeKinds};

/// Each cycle of edges that a schedule keeps has a pivot that starts before it commits. So a serial
/// schedule keeps no cycle, and any other schedule keeps no cycle with a single rw edge.
pub fn schedules_rule_out_cycles()
    ensures cycles { (keys : KeyOrder) (kinds : EdgeKinds) (ts : List Transaction) (s : Schedule)
        → Keeps keys kinds ts s → CyclesPivot keys kinds ts s }
    ensures phenomena { (keys : KeyOrder) (kinds : EdgeKinds) (serial : Bool) (ts : List Transaction)
        (s : Schedule) → Keeps keys kinds ts s → (IsTrue serial → IsSerial s)
        → HasNoneRuledOut keys kinds serial ts }
{}
