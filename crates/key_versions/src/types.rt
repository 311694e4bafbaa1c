//! Versions, and what is known of one.

ghost use Rattle.std.specs.Prelude.{◌≡◌};

use op_view::atom::Atom;
use std::marker::Model;

/// The transaction that wrote a version, by its index in the history.
#[derive(Clone, Copy, Debug, PartialEq, Eq)]
pub struct Writer {
    pub txn: u32,
    /// Whether it wrote the key again, so that it doesn't install the version.
    pub over: bool,
}

/// A transaction that installs a version after another one of the same key, by its index in the
/// history.
#[derive(Clone, Copy, Debug, Default, PartialEq, Eq)]
pub struct Follower {
    pub txn: u32,
    /// The number of the version that it installs.
    pub version: u32,
}

/// A version of a key. It borrows the block of a micro-operation that names it.
#[derive(Drop)]
pub struct VersionRef<'a> {
    key: Atom<'a>,
    value: Option<Atom<'a>>,
}

impl<'a> Model for VersionRef<'a> {
    ghost use Rattle.hist_types.specs.Transactions.{Version};

    ghost Value = { Version };

    ghost view = { λ v. record { key = v.key; value = v.value } };
}

impl<'a> VersionRef<'a> {
    pub(crate) fn new(key: Atom<'a>, value: Option<Atom<'a>>) -> Self
        ensures { result ≡ record { key = key.entry; value = value.entry } }
    {
        VersionRef { key, value }
    }

    pub fn key(&self) -> Atom<'a>
        ensures { result ≡ self.now.key }
    {
        self.key.copy()
    }

    /// The version's value. None is nil, which a key has at first.
    pub fn value(&self) -> Option<Atom<'a>>
        ensures { result ≡ self.now.value }
    {
        match &self.value {
            None => None,
            Some(value) => Some(value.copy()),
        }
    }
}
