//! Bad reads.

ghost use Rattle.std.specs.Prelude.{◌≡◌};

use key_versions::types::VersionRef;
use std::marker::Model;

/// A read of an ok transaction, and a transaction that wrote its version, each by the index of its
/// invocation.
#[derive(Drop)]
pub struct BadRead<'a> {
    reader: u64,
    version: VersionRef<'a>,
    writer: u64,
}

impl<'a> Model for BadRead<'a> {
    ghost use Rattle.hist_types.specs.Phenomena.{BadRead as ABadRead};

    ghost Value = { ABadRead };

    ghost view = { λ r. record { reader = r.reader; version = r.version; writer = r.writer } };
}

impl<'a> BadRead<'a> {
    pub(crate) fn new(reader: u64, version: VersionRef<'a>, writer: u64) -> Self
        ensures { result ≡ record { reader = reader; version = version.entry; writer = writer } }
    {
        BadRead {
            reader,
            version,
            writer,
        }
    }

    pub fn reader(&self) -> u64
        ensures { result ≡ self.now.reader }
    {
        self.reader
    }

    pub fn version(&self) -> &VersionRef<'a>
        ensures { result.now ≡ self.now.version }
    {
        &self.version
    }

    pub fn writer(&self) -> u64
        ensures { result ≡ self.now.writer }
    {
        self.writer
    }
}
