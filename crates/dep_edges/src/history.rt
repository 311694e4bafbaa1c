//! A history's transactions with the table of their versions.

ghost use Rattle.std.specs.Prelude.{◌≡◌, length, map, IsSome, All, Some};
ghost use Rattle.hist_types.specs.Phenomena.{is_stray};
ghost use Rattle.hist_types.specs.Transactions.{installed_by};
ghost use Rattle.key_versions.specs.Histories.{read_by, writer_of, readers_of, followers_of};
ghost use Rattle.key_versions.specs.Tables.{IsTableOf};
ghost use Rattle.dep_edges.specs.Histories.{AreOfHistory};
ghost use Rattle.dep_edges.specs.Reads.{DecidesAborted, DecidesIntermediate};
ghost use Rattle.dep_edges.specs.Tables.{IsPlace, IsNumber, IsWritten, AreNamedOnce, txn_at, version_at, IsWriterPlace, later_in, IsBehind};

use hist_types::types::KeyOrder;
use key_versions::table::Versions;
use key_versions::types::{Follower, VersionRef, Writer};
use op_view::atom::Atom;
use std::marker::Model;
use txn_pairs::types::{Txn, Txns};

/// A history's transactions with the table of their versions. Transactions go by `place`, their
/// index in the history, versions by number.
#[derive(Drop)]
pub struct History<'v, 'a> {
    txns: &'v Txns<'a>,
    versions: &'v Versions<'a>,
}

impl<'v, 'a> Model for History<'v, 'a> {
    ghost use Rattle.dep_edges.specs.Histories.{History as AHistory, IsHistory};

    ghost Value = { AHistory };

    ghost view = { λ h. record { txns = h.txns.now; table = h.versions.now } };

    ghost invariant = { λ h. IsHistory h.txns.now h.versions.now };
}

/// A version that a transaction wrote.
#[derive(Drop)]
pub struct Written<'a> {
    pub key: Atom<'a>,
    pub value: Atom<'a>,
}

impl<'v, 'a> History<'v, 'a> {
    pub(crate) fn new(txns: &'v Txns<'a>, versions: &'v Versions<'a>) -> Self
        requires kept { AreOfHistory txns.now }
        requires versions { IsTableOf versions.now.keys txns.now versions.now }
        ensures { result ≡ record { txns = txns.now; table = versions.now } }
    {
        History { txns, versions }
    }

    pub fn txns(&self) -> &'v [Txn<'a>]
        ensures value { result.now ≡ self.now.txns }
        ensures kept { AreOfHistory self.now.txns }
    {
        self.txns.as_slice()
    }

    /// How much is known of the order of each key's versions.
    pub fn keys(&self) -> KeyOrder
        ensures { result ≡ self.now.table.keys }
    {
        self.versions.keys()
    }

    /// How many versions there are.
    pub fn versions(&self) -> usize
        ensures value { result ≡ length self.now.table.versions }
        ensures table { IsTableOf self.now.table.keys self.now.txns self.now.table }
    {
        self.versions.len()
    }

    pub fn txn(&self, place: usize) -> &'v Txn<'a>
        requires { IsPlace self.now.txns place }
        ensures { result.now ≡ txn_at self.now.txns place }
    {
        &self.txns.as_slice()[place]
    }

    pub fn version(&self, number: usize) -> VersionRef<'a>
        requires { IsNumber self.now.table number }
        ensures { result ≡ version_at self.now.table number }
    {
        self.versions.version(number)
    }

    /// The version with this number, which isn't nil.
    pub fn written(&self, number: usize) -> Written<'a>
        requires number { IsNumber self.now.table number }
        requires written { IsWritten self.now.table number }
        ensures { version_at self.now.table number
            ≡ record { key = result.key; value = Some result.value } }
    {
        let version = self.version(number);
        Written {
            key: version.key(),
            value: version.value().unwrap(),
        }
    }

    /// The transaction that wrote the version.
    pub fn writer(&self, number: usize) -> Option<Writer>
        requires { IsNumber self.now.table number }
        ensures value { result ≡ writer_of self.now.txns (version_at self.now.table number) }
        ensures within { IsWriterPlace self.now.txns result }
        ensures aborted { DecidesAborted self.now.txns (version_at self.now.table number) result }
        ensures intermediate { DecidesIntermediate self.now.txns
            (version_at self.now.table number) result }
    {
        self.versions.writer(number)
    }

    /// The indexes of the transactions that read the version.
    pub fn readers(&self, number: usize) -> &'v [u32]
        requires { IsNumber self.now.table number }
        ensures value { result.now ≡ readers_of self.now.txns (version_at self.now.table number) }
        ensures within { All (IsPlace self.now.txns) result.now }
    {
        self.versions.readers(number)
    }

    /// The transactions that install a version after this one.
    pub fn followers(&self, number: usize) -> &'v [Follower]
        requires { IsNumber self.now.table number }
        ensures value { map (later_in self.now.table) result.now
            ≡ followers_of self.now.table.keys self.now.txns
            (version_at self.now.table number) }
        ensures within { All
            (IsBehind self.now.txns self.now.table (version_at self.now.table number)) result.now }
    {
        self.versions.followers(number)
    }

    /// The numbers of what the transaction reads; none where it isn't ok.
    pub fn reads(&self, place: usize) -> &'v [u32]
        requires { IsPlace self.now.txns place }
        ensures value { map (version_at self.now.table) result.now
            ≡ read_by (txn_at self.now.txns place) }
        ensures within { All (IsNumber self.now.table) result.now }
        ensures apart { AreNamedOnce self.now.table }
    {
        self.versions.reads(place)
    }

    /// The numbers of what the transaction installs.
    pub fn installs(&self, place: usize) -> &'v [u32]
        requires { IsPlace self.now.txns place }
        ensures value { map (version_at self.now.table) result.now
            ≡ installed_by (txn_at self.now.txns place) }
        ensures within { All (IsNumber self.now.table) result.now }
        ensures written { All (IsWritten self.now.table) result.now }
    {
        self.versions.installs(place)
    }

    #[tactic(auto, using(crate::proofs::Writers::stray_by_writer))]
    /// Whether the version isn't nil and nobody wrote it.
    pub fn is_stray(&self, number: usize) -> bool
        requires { IsNumber self.now.table number }
        ensures { result ≡ is_stray self.now.txns (version_at self.now.table number) }
    {
        self.version(number).value().is_some() && self.writer(number).is_none()
    }
}
