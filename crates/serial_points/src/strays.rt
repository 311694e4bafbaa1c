//! Reads of versions that nobody wrote.

ghost use Rattle.std.specs.Prelude.{◌≡◌, IfSome};
ghost use Rattle.serial_points.specs.Strays.{is_unwritten, unwritten, StraysAdvance};

use crate::places::Places;
use crate::views::LiveRun;
use key_versions::kept::Access;
use std::hash::BuildHasher;

/// Whether the version that is read isn't nil, and nobody wrote it.
fn is_stray(writers: &Places, read: Access) -> bool
    ensures { result ≡ is_unwritten writers.now read }
{
    read.version != read.nil && writers.at(read.version).len() == 0
}

/// How many of the reads are of such a version.
fn count(writers: &Places, reads: &[Access]) -> u64
    ensures { result ≡ unwritten writers.now reads.now }
{
    let mut strays = 0;
    for read in reads {
        if is_stray(writers, *read) {
            strays += 1;
        }
    }
    strays
}

/// The number of stray reads with those of the transaction at the place. None if it is too large.
pub(crate) fn strays_after<'r, 'a, S: BuildHasher + Copy>(
    strays: u64,
    writers: &Places,
    run: &LiveRun<'r, 'a, S>,
    place: usize,
) -> Option<u64>
    ensures { IfSome result (λ after.
        StraysAdvance strays after writers.now run.now.accesses place) }
{
    strays.checked_add(count(writers, run.reads(place)))
}
