//! The nil versions of keys, by the numbers of the keys.

ghost use Rattle.std.specs.Prelude.{◌≡◌, ◌<◌, None, Some, length, IfOk, OnOk, OnErr};
ghost use Rattle.atom_index.specs.Numbers.{AreNumbered, number_in, with_item, pair_eq};
ghost use Rattle.key_versions.specs.Nils.{AreNilsIn, AreOfKeysBelow, AreWithNils, KeepPlaces};

use atom_index::pairs::PairIndex;
use std::alloc::AllocError;
use std::hash::BuildHasher;

/// The number of the nil version of a key, which is mostly noted. Where it has none, it gets one.
#[inline(always)]
pub(crate) fn nil_number<S: BuildHasher>(
    pairs: &mut PairIndex<S>,
    nils: &mut Vec<Option<u32>>,
    key: u32,
) -> Result<u32, AllocError>
    requires key { key < length nils.old.items }
    requires nils { AreNilsIn pairs.old.items nils.old.items }
    ensures number { IfOk result
        (λ number. number_in pair_eq (key, None) pairs.new.items ≡ Some number) }
    ensures pairs { OnOk result
        (pairs.new.items ≡ with_item pair_eq pairs.old.items (key, None)) }
    ensures nils { AreNilsIn pairs.new.items nils.new.items }
    ensures len { length nils.new.items ≡ length nils.old.items }
    ensures err { OnErr result (pairs.new.items ≡ pairs.old.items) }
{
    match nils[key as usize] {
        Some(nil) => Ok(nil),
        None => insert_nil(pairs, nils, key),
    }
}

/// The number of the nil version of a key, looked up among the pairs. Where it has none, it gets
/// one.
#[inline(never)]
fn insert_nil<S: BuildHasher>(
    pairs: &mut PairIndex<S>,
    nils: &mut Vec<Option<u32>>,
    key: u32,
) -> Result<u32, AllocError>
    requires key { key < length nils.old.items }
    requires nils { AreNilsIn pairs.old.items nils.old.items }
    ensures number { IfOk result
        (λ number. number_in pair_eq (key, None) pairs.new.items ≡ Some number) }
    ensures pairs { OnOk result
        (pairs.new.items ≡ with_item pair_eq pairs.old.items (key, None)) }
    ensures nils { AreNilsIn pairs.new.items nils.new.items }
    ensures len { length nils.new.items ≡ length nils.old.items }
    ensures err { OnErr result (pairs.new.items ≡ pairs.old.items) }
{
    let nil = pairs.insert(key, None)?;
    nils[key as usize] = Some(nil);
    Ok(nil)
}

/// Gives a number to the nil version of each key of these pairs.
pub(crate) fn add_nils<S: BuildHasher>(
    pairs: &mut PairIndex<S>,
    nils: &mut Vec<Option<u32>>,
) -> Result<(), AllocError>
    requires keys { AreOfKeysBelow (length nils.old.items) pairs.old.items }
    requires nils { AreNilsIn pairs.old.items nils.old.items }
    ensures numbered { OnOk result (AreNumbered pair_eq pairs.new.items) }
    ensures pairs { OnOk result (AreWithNils pairs.old.items pairs.new.items) }
    ensures places { OnOk result (KeepPlaces pairs.old.items pairs.new.items) }
    ensures nils { OnOk result (AreNilsIn pairs.new.items nils.new.items) }
    ensures len { OnOk result (length nils.new.items ≡ length nils.old.items) }
{
    for number in 0..pairs.len() {
        let (key, _) = pairs.pair(number);
        nil_number(pairs, nils, key)?;
    }
    Ok(())
}
