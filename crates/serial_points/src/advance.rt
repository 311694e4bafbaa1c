//! One event more, for points and the users of versions.

ghost use Rattle.std.specs.Prelude.{◌≡◌, [], true, IfOk, OnOk};
ghost use Rattle.hist_types.specs.Transactions.{Open, Ok as Committed, Fail};
ghost use Rattle.serial_points.specs.KeptPoints.{FallAndPass, AdvancesBy, HasSettled, PointsAdvance, UsersAdvance};
ghost use Rattle.serial_points.specs.Views.{view_of};

use crate::falls::{Fall, lower};
use crate::settling::settle;
use crate::users::Users;
use crate::views::{LiveRun, PointsView};
use std::alloc::AllocError;
use std::hash::BuildHasher;
use txn_pairs::types::Status;

fn number_of(place: usize) -> Result<u32, AllocError>
    ensures { IfOk result (λ number. number ≡ place) }
{
    u32::try_from(place).map_err(|_| AllocError)
}

/// Adds the transaction at the place to the users of what it reads and writes.
pub(crate) fn add_users<'r, 'a, S: BuildHasher + Copy>(
    users: &mut Users,
    run: &LiveRun<'r, 'a, S>,
    place: usize,
) -> Result<(), AllocError>
    ensures added { OnOk result (UsersAdvance users.old users.new run.now.accesses place) }
    ensures bounds { OnOk result (users.new.bounds ≡ users.old.bounds) }
    ensures floors { OnOk result (users.new.floors ≡ users.old.floors) }
{
    let number = number_of(place)?;
    users.add(number, run.reads(place), run.writes(place))?;
    Ok(())
}

/// Lowers points, as the transaction at the place is now ok. Whether they pass.
fn lower_for_ok<'r, 'a, S: BuildHasher + Copy>(
    points: &mut Vec<u64>,
    users: &mut Users,
    run: &LiveRun<'r, 'a, S>,
    falls: &[Fall],
    place: usize,
) -> Result<bool, AllocError>
    ensures settled { IfOk result (λ passes. passes ≡ true → HasSettled
        points.new.items users.old users.new run.now.accesses place) }
    ensures passed { IfOk result (λ passes. passes ≡ true → FallAndPass
        points.old.items (view_of points.new.items users.new run.now) falls.now place) }
{
    if !lower(points.as_mut_slice(), falls) {
        return Ok(false);
    }
    settle(users, points.as_slice(), run, falls, place)?;
    Ok(PointsView::new(points.as_slice(), users, run).passes_after(falls, place))
}

/// Adds a point for the transaction at the place, which begins. Whether points pass.
fn begin<'r, 'a, S: BuildHasher + Copy>(
    points: &mut Vec<u64>,
    users: &mut Users,
    run: &LiveRun<'r, 'a, S>,
    place: usize,
) -> Result<bool, AllocError>
    ensures settled { OnOk result
        (HasSettled points.new.items users.old users.new run.now.accesses place) }
    ensures begun { IfOk result (λ passes. passes ≡ true → AdvancesBy Open
        points.old.items (view_of points.new.items users.new run.now) [] place) }
{
    points.push(u64::MAX)?;
    settle(users, points.as_slice(), run, &[], place)?;
    Ok(run.is_unread(users, place))
}

/// Keeps points after a fail of the transaction at the place. Whether they pass.
fn fail<'r, 'a, S: BuildHasher + Copy>(
    points: &[u64],
    users: &mut Users,
    run: &LiveRun<'r, 'a, S>,
    place: usize,
) -> Result<bool, AllocError>
    ensures settled { OnOk result
        (HasSettled points.now users.old users.new run.now.accesses place) }
    ensures failed { IfOk result (λ passes. passes ≡ true → AdvancesBy Fail
        points.now (view_of points.now users.new run.now) [] place) }
{
    settle(users, points, run, &[], place)?;
    Ok(run.is_unread(users, place))
}

/// Lowers points, as the transaction at the place is now ok, if what it reads is clean. Whether
/// they pass.
fn complete<'r, 'a, S: BuildHasher + Copy>(
    points: &mut Vec<u64>,
    users: &mut Users,
    run: &LiveRun<'r, 'a, S>,
    falls: &[Fall],
    place: usize,
) -> Result<bool, AllocError>
    ensures settled { IfOk result (λ passes. passes ≡ true → HasSettled
        points.new.items users.old users.new run.now.accesses place) }
    ensures completed { IfOk result (λ passes. passes ≡ true → AdvancesBy Committed
        points.old.items (view_of points.new.items users.new run.now) falls.now place) }
{
    if !lower_for_ok(points, users, run, falls, place)? {
        return Ok(false);
    }
    Ok(PointsView::new(points.as_slice(), users, run).reads_clean(place))
}

/// Whether there are points after the event that began or completed the transaction at the place,
/// where these fall if it is ok.
pub(crate) fn advance<'r, 'a, S: BuildHasher + Copy>(
    points: &mut Vec<u64>,
    users: &mut Users,
    run: &LiveRun<'r, 'a, S>,
    falls: &[Fall],
    place: usize,
) -> Result<bool, AllocError>
    ensures settled { IfOk result (λ passes. passes ≡ true → HasSettled
        points.new.items users.old users.new run.now.accesses place) }
    ensures advanced { IfOk result (λ passes. passes ≡ true → PointsAdvance
        points.old.items (view_of points.new.items users.new run.now) falls.now place) }
{
    let Some(txn) = run.txn(place) else {
        return Ok(false);
    };
    match txn.status() {
        Status::Open => begin(points, users, run, place),
        Status::Ok => complete(points, users, run, falls, place),
        Status::Fail => fail(points.as_slice(), users, run, place),
        Status::Info => {
            settle(users, points.as_slice(), run, &[], place)?;
            Ok(true)
        }
    }
}
