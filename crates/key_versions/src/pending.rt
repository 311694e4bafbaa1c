//! What is known of each version while transactions are taken, and how it is put together.

ghost use Rattle.std.specs.Prelude.{◌≡◌, ◌<◌, ◌++◌, ◌∷◌, [], Some, length, map, All, IfOk, OnOk};
ghost use Rattle.std.specs.Option.{option_or};
ghost use Rattle.key_versions.specs.Pending.{writer_in};
ghost use Rattle.key_versions.specs.Rows.{Known, change, is_behind, unknown, with_follower, with_place, with_reader, with_writer};
ghost use Rattle.key_versions.specs.Steps.{stepped_rows, FollowersAreUpTo, InstallsAreBelow, AreBelow};

use crate::accesses::Accesses;
use crate::interleaving::with_steps;
use crate::push::push;
use crate::types::{Follower, Writer};
use flat_groups::groups::Groups;
use std::alloc::{AllocError, Global};
use std::marker::Model;

/// A version that a transaction reads or writes, by number, and the nil version of its key.
#[derive(Clone, Copy, Debug, Default, PartialEq, Eq)]
pub struct Access {
    pub nil: u32,
    pub version: u32,
}

impl Access {
    /// Whether a version that the transaction installs follows this one, which it reads. What
    /// follows nil is known without reads.
    fn is_followed_by(self, install: Access) -> bool
        ensures { result ≡ is_behind self install }
    {
        self.version != self.nil && install.nil == self.nil && install.version != self.version
    }
}

/// Who wrote a version. It takes 8 bytes, where an optional `Writer` takes 12.
#[derive(Clone, Copy, Debug, PartialEq, Eq)]
pub(crate) enum Written {
    Never,
    /// The transaction at this index, which didn't write the key again.
    Last(u32),
    /// The transaction at this index, which wrote the key again.
    Over(u32),
}

impl Written {
    pub fn writer(self) -> Option<Writer>
        ensures { result ≡ writer_in self }
    {
        match self {
            Written::Never => None,
            Written::Last(txn) => Some(Writer { txn, over: false }),
            Written::Over(txn) => Some(Writer { txn, over: true }),
        }
    }

    /// The first writer of a version: what is kept, if there is one, or else this one.
    fn or(self, writer: Writer) -> Self
        ensures { writer_in result ≡ option_or (writer_in self) (Some writer) }
    {
        match self {
            Written::Never if writer.over => Written::Over(writer.txn),
            Written::Never => Written::Last(writer.txn),
            written => written,
        }
    }
}

/// What is known of each version so far. Readers and followers come in the order of their
/// transactions.
pub(crate) struct Pending {
    writers: Vec<Written>,
    /// Pairs of a version and the index of a transaction that reads it.
    readers: Vec<(u32, u32)>,
    /// Pairs of a version and a follower of it.
    followers: Vec<(u32, Follower)>,
}

// By hand: a derived drop is inlined at every exit, which slows the prover (CONTRIBUTING.md).
impl Drop for Pending {
    fn drop(self) {
        let Pending {
            writers: _,
            readers: _,
            followers: _,
        } = self;
    }
}

impl Model for Pending {
    ghost use Rattle.std.specs.Prelude.{List};
    ghost use Rattle.key_versions.specs.Pending.{known_from, AreOfVersions};
    ghost use Rattle.key_versions.specs.Rows.{Known};

    ghost Value = { List Known };

    ghost view = { λ p. known_from 0 p.writers.items p.readers.items p.followers.items };

    ghost invariant = { λ p. AreOfVersions p.writers.items p.readers.items p.followers.items };
}

/// What is known of each version, by its number.
#[derive(Drop)]
pub(crate) struct Grouped {
    pub writers: Vec<Written>,
    pub readers: Groups<u32>,
    pub followers: Groups<Follower>,
}

impl Pending {
    /// What is known of no versions, with room for this many, and for what n transactions mostly
    /// do: each writes a version, reads two and installs two.
    pub fn with_capacity(
        alloc: Global,
        transactions: usize,
        versions: usize,
    ) -> Result<Self, AllocError>
        ensures { IfOk result (λ pending. pending ≡ []) }
    {
        let two_each = transactions.saturating_mul(2);
        Ok(Pending {
            writers: Vec::with_capacity(alloc, transactions.max(versions))?,
            readers: Vec::with_capacity(alloc, two_each)?,
            followers: Vec::with_capacity(alloc, two_each)?,
        })
    }

    /// How many versions there are.
    pub fn len(&self) -> usize
        ensures { result ≡ length self.now }
    {
        self.writers.len()
    }

    /// Adds a version of which nothing is known.
    pub fn add(&mut self) -> Result<(), AllocError>
        ensures { OnOk result (self.new ≡ self.old ++ unknown ∷ []) }
    {
        push(&mut self.writers, Written::Never)?;
        Ok(())
    }

    pub fn write(&mut self, version: u32, writer: Writer)
        requires { version < length self.old }
        ensures { self.new ≡ change (with_writer writer) version self.old }
    {
        self.writers[version as usize] = self.writers[version as usize].or(writer);
    }

    /// Adds a follower of the version. Followers are added in the order of their transactions.
    pub fn follow(&mut self, version: u32, follower: Follower) -> Result<(), AllocError>
        requires version { version < length self.old }
        requires order { All (FollowersAreUpTo follower.txn) self.old }
        ensures { OnOk result (self.new ≡ change (with_follower follower) version self.old) }
    {
        push(&mut self.followers, (version, follower))?;
        Ok(())
    }

    fn add_reader(&mut self, version: u32, place: u32) -> Result<(), AllocError>
        requires { version < length self.old }
        ensures { OnOk result (self.new ≡ change (with_place place) version self.old) }
    {
        push(&mut self.readers, (version, place))?;
        Ok(())
    }

    /// Adds a read of the version by the transaction at this index. What the transaction installs
    /// follows the version; after nil that is known already.
    pub fn read(&mut self, place: u32, read: Access, installs: &[Access]) -> Result<(), AllocError>
        requires version { read.version < length self.old }
        requires order { All (FollowersAreUpTo place) self.old }
        ensures { OnOk result
            (self.new ≡ change (with_reader place read installs.now) read.version self.old) }
    {
        self.add_reader(read.version, place)?;
        for install in installs {
            if read.is_followed_by(*install) {
                self.follow(
                    read.version,
                    Follower {
                        txn: place,
                        version: install.version,
                    },
                )?;
            }
        }
        Ok(())
    }

    /// Adds what each transaction installs, after the earlier versions that each version has by
    /// steps of processes. Room is made for this many steps.
    pub fn follow_steps(
        &mut self,
        alloc: Global,
        accesses: &Accesses,
        earlier: &Groups<u32>,
        steps: usize,
    ) -> Result<(), AllocError>
        requires installs { All (InstallsAreBelow (length earlier.now)) accesses.now }
        requires earlier { All (AreBelow (length self.old)) earlier.now }
        ensures { OnOk result (self.new ≡ stepped_rows earlier.now accesses.now 0 self.old) }
    {
        self.followers = with_steps(
            alloc,
            self.writers.len(),
            self.followers.as_slice(),
            accesses,
            earlier,
            steps,
        )?;
        Ok(())
    }

    /// The readers of each version, by its number.
    fn group_readers(&self, alloc: Global) -> Result<Groups<u32>, AllocError>
        ensures { IfOk result (λ readers. readers ≡ map (λ (k : Known). k.readers) self.now) }
    {
        Groups::of(alloc, self.writers.len(), self.readers.as_slice())
    }

    /// The followers of each version, by its number.
    fn group_followers(&self, alloc: Global) -> Result<Groups<Follower>, AllocError>
        ensures { IfOk result (λ followers. followers ≡ map (λ (k : Known). k.followers) self.now) }
    {
        Groups::of(alloc, self.writers.len(), self.followers.as_slice())
    }

    /// Puts together what is known of each version.
    pub fn finish(self, alloc: Global) -> Result<Grouped, AllocError>
        ensures writers { IfOk result
            (λ g. map writer_in g.writers.items ≡ map (λ (k : Known). k.writer) self) }
        ensures readers { IfOk result (λ g. g.readers ≡ map (λ (k : Known). k.readers) self) }
        ensures followers { IfOk result (λ g. g.followers ≡ map (λ (k : Known). k.followers) self) }
    {
        let readers = self.group_readers(alloc)?;
        let followers = self.group_followers(alloc)?;
        let Pending {
            writers,
            readers: _,
            followers: _,
        } = self;
        Ok(Grouped {
            writers,
            readers,
            followers,
        })
    }
}
