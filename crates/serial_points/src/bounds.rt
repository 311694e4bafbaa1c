//! Bounds of points.

ghost use Rattle.std.specs.Prelude.{◌≡◌, ◌≤◌, ℕ, [], length, slice_index, All, OnOk};
ghost use Rattle.serial_points.specs.Bounds.{AreHigher, AreBounds, AreAtMost, BoundsReads, AreAtLeast, AreFloors, FloorsWrites};

use crate::places::Places;
use clean_order::updates::updates;
use key_versions::kept::Access;
use std::alloc::{AllocError, Global};
use std::marker::Model;

/// A bound for each number. It is 0 where none was set.
#[derive(Drop)]
pub(crate) struct Bounds {
    bounds: Vec<u64>,
}

impl Model for Bounds {
    ghost use Rattle.std.specs.Prelude.{ℕ, List};

    ghost Value = { List ℕ };

    ghost view = { λ b. b.bounds.items };
}

impl Bounds {
    pub fn new(alloc: Global) -> Self
        ensures { result ≡ [] }
    {
        Bounds {
            bounds: Vec::new(alloc),
        }
    }

    pub fn at(&self, number: u32) -> u64
        ensures { result ≡ slice_index self.now number }
    {
        match self.bounds.get(number as usize) {
            Some(bound) => *bound,
            None => 0,
        }
    }

    /// Sets bounds of 0, so that there is one for each of n numbers.
    fn grow(&mut self, numbers: usize) -> Result<(), AllocError>
        ensures enough { OnOk result (numbers ≤ length self.new) }
        ensures same { OnOk result
            ((n : ℕ) → slice_index self.new n ≡ slice_index self.old n) }
    {
        while self.bounds.len() < numbers {
            self.bounds.push(0)?;
        }
        Ok(())
    }

    fn set(&mut self, number: u32, bound: u64) -> Result<(), AllocError>
        ensures set { OnOk result (slice_index self.new number ≡ bound) }
        ensures others { OnOk result ((n : ℕ)
            → ¬ (n ≡ number) → slice_index self.new n ≡ slice_index self.old n) }
    {
        self.grow(number as usize + 1)?;
        self.bounds[number as usize] = bound;
        Ok(())
    }

    /// Raises the bound, if it is lower.
    fn raise(&mut self, number: u32, bound: u64) -> Result<(), AllocError>
        ensures raised { OnOk result (bound ≤ slice_index self.new number) }
        ensures higher { OnOk result (AreHigher self.old self.new) }
    {
        if self.at(number) < bound {
            self.set(number, bound)?;
        }
        Ok(())
    }

    /// Lowers the bound, if it is higher.
    fn lower(&mut self, number: u32, bound: u64) -> Result<(), AllocError>
        ensures lowered { OnOk result (slice_index self.new number ≤ bound) }
        ensures lower { OnOk result (AreHigher self.new self.old) }
    {
        if bound < self.at(number) {
            self.set(number, bound)?;
        }
        Ok(())
    }
}

/// Raises bounds for a transaction that reads and writes this, and has this point.
pub(crate) fn raise_for(
    bounds: &mut Bounds,
    point: u64,
    reads: &[Access],
    writes: &[Access],
) -> Result<(), AllocError>
    ensures raised { OnOk result (BoundsReads bounds.new point reads.now writes.now) }
    ensures higher { OnOk result (AreHigher bounds.old bounds.new) }
{
    for read in reads {
        if !updates(writes, *read) {
            bounds.raise(read.version, point)?;
        }
    }
    Ok(())
}

/// The point at the place, or 0 if there is none.
pub(crate) fn point_of(points: &[u64], place: usize) -> u64
    ensures { result ≡ slice_index points.now place }
{
    match points.get(place) {
        Some(point) => *point,
        None => 0,
    }
}

/// The highest point at the places.
fn highest_at(points: &[u64], places: &[u32]) -> u64
    ensures { AreAtMost points.now places.now result }
{
    let mut highest = 0;
    for place in places {
        highest = highest.max(point_of(points, *place as usize));
    }
    highest
}

/// Lowers the bound to the points of those that are listed, if it isn't below this point.
fn tighten(
    bounds: &mut Bounds,
    points: &[u64],
    readers: &Places,
    number: u32,
    point: u64,
) -> Result<(), AllocError>
    ensures { OnOk result (AreBounds points.now readers.now bounds.old bounds.new) }
{
    if bounds.at(number) < point {
        return Ok(());
    }
    let highest = highest_at(points, readers.at(number));
    if highest < bounds.at(number) {
        bounds.set(number, highest)?;
    }
    Ok(())
}

/// Does so for each key that is written.
pub(crate) fn tighten_for(
    bounds: &mut Bounds,
    points: &[u64],
    readers: &Places,
    point: u64,
    writes: &[Access],
) -> Result<(), AllocError>
    ensures { OnOk result (AreBounds points.now readers.now bounds.old bounds.new) }
{
    for write in writes {
        tighten(bounds, points, readers, write.nil, point)?;
    }
    Ok(())
}

/// Does so for each of the versions.
pub(crate) fn tighten_at(
    bounds: &mut Bounds,
    points: &[u64],
    readers: &Places,
    point: u64,
    versions: &[u32],
) -> Result<(), AllocError>
    ensures { OnOk result (AreBounds points.now readers.now bounds.old bounds.new) }
{
    for version in versions {
        tighten(bounds, points, readers, *version, point)?;
    }
    Ok(())
}

/// Does so for the earlier version of each step, whose later one is first, and the points of those
/// that write the later one.
pub(crate) fn tighten_steps(
    bounds: &mut Bounds,
    points: &[u64],
    readers: &Places,
    writers: &Places,
    steps: &[(u32, u32)],
) -> Result<(), AllocError>
    ensures { OnOk result (AreBounds points.now readers.now bounds.old bounds.new) }
{
    for step in steps {
        let point = least_at(points, writers.at(step.0));
        tighten(bounds, points, readers, step.1, point)?;
    }
    Ok(())
}

/// Lowers floors for a transaction that writes this, and has this point.
pub(crate) fn lower_for(
    floors: &mut Bounds,
    point: u64,
    writes: &[Access],
) -> Result<(), AllocError>
    ensures lowered { OnOk result (FloorsWrites floors.new point writes.now) }
    ensures lower { OnOk result (AreHigher floors.new floors.old) }
{
    for write in writes {
        floors.lower(write.nil, point)?;
    }
    Ok(())
}

/// The least point at the places.
fn least_at(points: &[u64], places: &[u32]) -> u64
    ensures { AreAtLeast points.now places.now result }
{
    let mut least = u64::MAX;
    for place in places {
        least = least.min(point_of(points, *place as usize));
    }
    least
}

/// Raises the floor to the points of those that are listed, if it isn't above this point.
fn lift(
    floors: &mut Bounds,
    points: &[u64],
    key_writers: &Places,
    number: u32,
    point: u64,
) -> Result<(), AllocError>
    ensures { OnOk result (AreFloors points.now key_writers.now floors.old floors.new) }
{
    if point < floors.at(number) {
        return Ok(());
    }
    let least = least_at(points, key_writers.at(number));
    if floors.at(number) < least {
        floors.set(number, least)?;
    }
    Ok(())
}

/// Does so for each nil version that is read.
pub(crate) fn lift_for(
    floors: &mut Bounds,
    points: &[u64],
    key_writers: &Places,
    point: u64,
    reads: &[Access],
) -> Result<(), AllocError>
    ensures { OnOk result (AreFloors points.now key_writers.now floors.old floors.new) }
{
    for read in reads {
        if read.version == read.nil {
            lift(floors, points, key_writers, read.nil, point)?;
        }
    }
    Ok(())
}
