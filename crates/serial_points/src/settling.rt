//! Bounds and floors of points that fell.

ghost use Rattle.std.specs.Prelude.{OnOk};
ghost use Rattle.serial_points.specs.Bounds.{AreBounds, AreHigher, IsFloored};
ghost use Rattle.serial_points.specs.Falls.{AreFloored};
ghost use Rattle.serial_points.specs.KeptPoints.{HasSettled};

use crate::bounds::{
    Bounds, lift_for, lower_for, point_of, raise_for, tighten_at, tighten_for, tighten_steps,
};
use crate::falls::Fall;
use crate::places::Places;
use crate::users::Users;
use crate::views::LiveRun;
use std::alloc::AllocError;
use std::hash::BuildHasher;

/// Lowers the bounds of the versions that the transaction at the place follows, by nil or by a
/// step, where they aren't below its point.
fn tighten_before<'r, 'a, S: BuildHasher + Copy>(
    bounds: &mut Bounds,
    points: &[u64],
    readers: &Places,
    run: &LiveRun<'r, 'a, S>,
    place: usize,
) -> Result<(), AllocError>
    ensures { OnOk result (AreBounds points.now readers.now bounds.old bounds.new) }
{
    let point = point_of(points, place);
    let writes = run.writes(place);
    tighten_for(bounds, points, readers, point, writes)?;
    for write in writes {
        tighten_at(bounds, points, readers, point, run.earlier(write.version))?;
    }
    Ok(())
}

/// Does so for those at the places of the falls.
fn tighten_falls<'r, 'a, S: BuildHasher + Copy>(
    bounds: &mut Bounds,
    points: &[u64],
    readers: &Places,
    run: &LiveRun<'r, 'a, S>,
    falls: &[Fall],
) -> Result<(), AllocError>
    ensures { OnOk result (AreBounds points.now readers.now bounds.old bounds.new) }
{
    for fall in falls {
        tighten_before(bounds, points, readers, run, fall.place as usize)?;
    }
    Ok(())
}

/// Lowers floors for the transaction at the place.
fn lower_at<'r, 'a, S: BuildHasher + Copy>(
    floors: &mut Bounds,
    points: &[u64],
    run: &LiveRun<'r, 'a, S>,
    place: usize,
) -> Result<(), AllocError>
    ensures floored { OnOk result (IsFloored run.now.accesses points.now floors.new place) }
    ensures lower { OnOk result (AreHigher floors.new floors.old) }
{
    lower_for(floors, point_of(points, place), run.writes(place))?;
    Ok(())
}

/// Lowers floors for those at the places of the falls.
fn lower_falls<'r, 'a, S: BuildHasher + Copy>(
    floors: &mut Bounds,
    points: &[u64],
    run: &LiveRun<'r, 'a, S>,
    falls: &[Fall],
) -> Result<(), AllocError>
    ensures floored { OnOk result
        (AreFloored run.now.accesses points.now floors.new falls.now) }
    ensures lower { OnOk result (AreHigher floors.new floors.old) }
{
    for fall in falls {
        lower_at(floors, points, run, fall.place as usize)?;
    }
    Ok(())
}

/// Settles bounds and floors after these points fell, at an event of the transaction at the place.
pub(crate) fn settle<'r, 'a, S: BuildHasher + Copy>(
    users: &mut Users,
    points: &[u64],
    run: &LiveRun<'r, 'a, S>,
    falls: &[Fall],
    place: usize,
) -> Result<(), AllocError>
    ensures settled { OnOk result
        (HasSettled points.now users.old users.new run.now.accesses place) }
    ensures falls { OnOk result
        (AreFloored run.now.accesses points.now users.new.floors falls.now) }
{
    let point = point_of(points, place);
    let reads = run.reads(place);
    tighten_falls(&mut users.bounds, points, &users.readers, run, falls)?;
    tighten_steps(
        &mut users.bounds,
        points,
        &users.readers,
        &users.writers,
        run.fresh(),
    )?;
    raise_for(&mut users.bounds, point, reads, run.writes(place))?;
    lift_for(&mut users.floors, points, &users.key_writers, point, reads)?;
    lower_falls(&mut users.floors, points, run, falls)?;
    lower_at(&mut users.floors, points, run, place)
}
