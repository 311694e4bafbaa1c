//! Followers by steps of processes, among those that are known without them.

ghost use Rattle.std.specs.Prelude.{◌≡◌, ℕ, List, length, All, IfOk, OnOk};
ghost use Rattle.flat_groups.specs.Groups.{IsNumbered};
ghost use Rattle.key_versions.specs.Pending.{AreInOrder};
ghost use Rattle.key_versions.specs.Steps.{behind_all, behind_steps, followers_from, run_of, AreFollowers, AreMarked, InstallsAreBelow, AreBelow};

use crate::accesses::Accesses;
use crate::rows::number_of;
use crate::types::Follower;
use flat_groups::groups::Groups;
use std::alloc::{AllocError, Global};

/// Marks the versions that these follow. The mark of a version is that of the last transaction that
/// was seen to follow it.
fn mark_all(marks: &mut [u32], mark: u32, followers: &[(u32, Follower)])
    requires numbers { All (IsNumbered (length marks.old)) followers.now }
    requires lower { AreBelow mark marks.old }
    ensures length { length marks.new ≡ length marks.old }
    ensures marked { AreMarked mark followers.now marks.new }
{
    for (version, _) in followers {
        marks[*version as usize] = mark;
    }
}

/// Adds the follower after each of these versions, unless its transaction follows that one already.
fn follow_all(
    followers: &mut Vec<(u32, Follower)>,
    marks: &mut [u32],
    mark: u32,
    follower: Follower,
    earlier: &[u32],
) -> Result<(), AllocError>
    requires { AreBelow (length marks.old) earlier.now }
    ensures length { length marks.new ≡ length marks.old }
    ensures followers { (before known : List (ℕ × Follower))
        → AreFollowers mark before known followers.old.items marks.old
        → OnOk result (AreFollowers mark before (behind_all follower known earlier.now)
        followers.new.items marks.new) }
{
    for version in earlier {
        if marks[*version as usize] != mark {
            marks[*version as usize] = mark;
            followers.push((*version, follower))?;
        }
    }
    Ok(())
}

/// Adds what the transaction at this index installs, each after its earlier versions.
fn follow_steps(
    followers: &mut Vec<(u32, Follower)>,
    marks: &mut [u32],
    mark: u32,
    place: u32,
    installs: &[u32],
    earlier: &Groups<u32>,
) -> Result<(), AllocError>
    requires installs { AreBelow (length earlier.now) installs.now }
    requires earlier { All (AreBelow (length marks.old)) earlier.now }
    ensures length { length marks.new ≡ length marks.old }
    ensures followers { (before known : List (ℕ × Follower))
        → AreFollowers mark before known followers.old.items marks.old
        → OnOk result (AreFollowers mark before (behind_steps earlier.now place known installs.now)
        followers.new.items marks.new) }
{
    for version in installs {
        let follower = Follower {
            txn: place,
            version: *version,
        };
        follow_all(
            followers,
            marks,
            mark,
            follower,
            earlier.get(*version as usize),
        )?;
    }
    Ok(())
}

/// How many of the followers, from the first on, are of the transaction at this index.
fn count_of(followers: &[(u32, Follower)], place: u32) -> usize
    ensures { result ≡ run_of place followers.now }
{
    for (i, pair) in followers.iter().enumerate() {
        if pair.1.txn != place {
            return i;
        }
    }
    followers.len()
}

/// The followers of n versions, in the order of their transactions, with those that the earlier
/// versions of each version add. Room is made at once for one more for each step.
pub(crate) fn with_steps(
    alloc: Global,
    versions: usize,
    followers: &[(u32, Follower)],
    accesses: &Accesses,
    earlier: &Groups<u32>,
    steps: usize,
) -> Result<Vec<(u32, Follower)>, AllocError>
    requires versions { All (IsNumbered versions) followers.now }
    requires order { AreInOrder 0 followers.now }
    requires installs { All (InstallsAreBelow (length earlier.now)) accesses.now }
    requires earlier { All (AreBelow versions) earlier.now }
    ensures { IfOk result
        (λ all. all.items ≡ followers_from earlier.now followers.now 0 accesses.now) }
{
    let mut all = Vec::with_capacity(alloc, followers.len().saturating_add(steps))?;
    let mut marks = vec![in alloc; 0; versions]?;
    let mut rest = followers;
    for place in 0..accesses.len() {
        let txn = number_of(place)?;
        let mark = number_of(place + 1)?;
        let (known, later) = rest.split_at(count_of(rest, txn));
        rest = later;
        all.extend_from_slice(known)?;
        mark_all(&mut marks, mark, known);
        follow_steps(
            &mut all,
            &mut marks,
            mark,
            txn,
            accesses.installs(place),
            earlier,
        )?;
    }
    Ok(all)
}
