//! Laws of this crate's definitions: the contracts of functions that do nothing.

ghost use Rattle.std.specs.Prelude.{◌↔◌, List};
ghost use Rattle.hist_types.specs.Lists.{HasExactly};
ghost use Rattle.hist_types.specs.Transactions.{Transaction};
ghost use Rattle.hist_types.specs.Versions.{VersionPair, version_pairs};
ghost use Rattle.hist_types.specs.declared.types.KeyOrder.{KeyOrder};
ghost use Rattle.hist_types.specs.declared.types.KeyOrder.TheVariants.{Basic};
ghost use Rattle.key_versions.specs.Pairs.{IsFollowedByNode, IsInstalledPair, IsPairByTable};
ghost use Rattle.key_versions.specs.Tables.{Table, IsTableOf};

/// The version pairs of a history whose later version a node installs are those of a version and of
/// what one of its followers installs, of the followers that are nodes. So the table of a history
/// determines these pairs. Where keys are basic, there are no others.
pub fn version_pairs_by_followers()
    ensures history { (keys : KeyOrder) → (ts : List Transaction) → (p : VersionPair)
        → IsInstalledPair keys ts p ↔ IsFollowedByNode keys ts p }
    ensures table { (keys : KeyOrder) → (ts : List Transaction) → (table : Table)
        → IsTableOf keys ts table → (p : VersionPair)
        → IsInstalledPair keys ts p ↔ IsPairByTable ts table p }
    ensures basic { (ts : List Transaction)
        → HasExactly (version_pairs Basic ts) (IsFollowedByNode Basic ts) }
{}
