//! Laws of limits, refusals, levels and equality: the contracts of functions that do nothing, and
//! of one that compares levels.

ghost use Rattle.std.specs.Prelude.{◌≡◌, ◌↔◌, ◌≤◌, ◌<◌, ◌-◌, ◌^◌, IsTrue};
ghost use Rattle.std.specs.Ordering.{nat_cmp};
ghost use Rattle.hist_types.specs.Atoms.{Atom, Value, atom_eq, value_eq};
ghost use Rattle.hist_types.specs.Journal.{Write, write_eq};
ghost use Rattle.hist_types.specs.Phenomena.{height};
ghost use Rattle.hist_types.specs.Refusals.{number_of, name_of};
ghost use Rattle.hist_types.specs.Transactions.{Version, version_eq};
ghost use Rattle.hist_types.specs.declared.limits.TheConstants.{MAX_PROCESS, MAX_MICRO_OPS, MAX_OPERATION_BYTES, MAX_OPEN_COLLECTIONS, MAX_BLOCK_OPERATIONS, MAX_BLOCK_BYTES, MAX_CELLS, MAX_EVENTS, INDEX_DIGITS, MAX_LINE_BYTES, MAX_WORKERS};
ghost use Rattle.hist_types.specs.declared.types.Level.{Level};
ghost use Rattle.hist_types.specs.declared.types.Refusal.{Refusal};

use crate::types::Level;
use std::cmp::Ordering;

/// Each limit is this number.
pub fn limits_in_numbers()
    ensures process { MAX_PROCESS ≡ 2147483647 }
    ensures micro_ops { MAX_MICRO_OPS ≡ 256 }
    ensures operation_bytes { MAX_OPERATION_BYTES ≡ 65536 }
    ensures open_collections { MAX_OPEN_COLLECTIONS ≡ 64 }
    ensures block_operations { MAX_BLOCK_OPERATIONS ≡ 1024 }
    ensures block_bytes { MAX_BLOCK_BYTES ≡ 1048576 }
    ensures cells { MAX_CELLS ≡ 1048576 }
    ensures events { MAX_EVENTS ≡ 1048576 }
    ensures index_digits { (10 ^ (INDEX_DIGITS - 1) ≤ MAX_EVENTS)
        × (MAX_EVENTS < 10 ^ INDEX_DIGITS) }
    ensures line_bytes { MAX_LINE_BYTES ≡ 1048576 }
    ensures workers { MAX_WORKERS ≡ 64 }
{}

/// No two refusals share a number or a name.
pub fn no_two_refusals_alike()
    ensures numbers { (a b : Refusal) → number_of a ≡ number_of b → a ≡ b }
    ensures names { (a b : Refusal) → name_of a ≡ name_of b → a ≡ b }
{}

/// Plain is below process, and process below realtime.
pub fn levels_in_order(a: Level, b: Level) -> Ordering
    ensures { result ≡ nat_cmp (height a) (height b) }
{
    a.cmp(&b)
}

/// The tests of equality pass equal things, and nothing else: for atoms, for what reads return, for
/// writes and for versions.
pub fn equality_decided()
    ensures atoms { (a b : Atom) → IsTrue (atom_eq a b) ↔ (a ≡ b) }
    ensures values { (v w : Value) → IsTrue (value_eq v w) ↔ (v ≡ w) }
    ensures writes { (a b : Write) → IsTrue (write_eq a b) ↔ (a ≡ b) }
    ensures versions { (v w : Version) → IsTrue (version_eq v w) ↔ (v ≡ w) }
{}
