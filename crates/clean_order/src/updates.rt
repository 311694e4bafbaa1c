//! Which versions a transaction updates, by number.

ghost use Rattle.std.specs.Prelude.{◌≡◌};
ghost use Rattle.key_versions.specs.Rows.{has_nil};
ghost use Rattle.clean_order.specs.Accesses.{updates};

use key_versions::kept::Access;

/// Whether one of them is of the key with this nil version.
pub fn has_key(accesses: &[Access], nil: u32) -> bool
    ensures { result ≡ has_nil nil accesses.now }
{
    accesses.iter().any(|access| access.nil == nil)
}

/// Whether the last one of the key that is read writes another version.
pub fn updates(writes: &[Access], read: Access) -> bool
    ensures { result ≡ updates writes.now read }
{
    let mut found = false;
    for write in writes {
        if write.nil == read.nil {
            found = write.version != read.version;
        }
    }
    found
}
