//! Parts of a front: those within a need, its last cost, its points moved, and one point more that is cheaper.
ghost use Rattle.std.specs.Prelude.{◌≡◌, ℕ, ◌+◌, ◌<◌, ◌≤◌, ◌^◌, ◌++◌, All, IfOk, length, map, take};
ghost use Rattle.pareto_front.specs.Cheaper.{with_cheaper};
ghost use Rattle.pareto_front.specs.Front.{IsFront, NeedsWithin, cheapest, moved_by};
ghost use Rattle.pareto_front.specs.Sweep.{IsReadTo, last_cost};

use crate::point::Point;
use duct_units::NoMemory;
use std::alloc::Global;

/// The points that need no more than this, dPa.
pub(crate) fn points_within(points: &[Point], need: u64) -> &[Point]
    requires { IsFront points.now }
    ensures part { result.now ≡ take (length result.now) points.now }
    ensures front { IsFront result.now }
    ensures read { IsReadTo (need + 1) points.now (length result.now) }
    ensures within { All (λ point. point.need ≤ need) result.now }
    ensures prices { (budget : ℕ) → budget ≤ need →
        cheapest result.now budget ≡ cheapest points.now budget }
{
    let count = points.partition_point(|point| point.need <= need);
    &points[..count]
}

/// The cost of the last point, cents.
pub(crate) fn last_cost(points: &[Point]) -> Option<u64>
    ensures { result ≡ last_cost points.now }
{
    points.last().map(|point| point.cost)
}

/// The points with the loss added to each need, dPa, and the price to each cost, cents.
pub(crate) fn moved(
    alloc: Global,
    points: &[Point],
    loss: u64,
    price: u64,
) -> Result<Vec<Point>, NoMemory>
    requires needs { All (λ point. point.need + loss < 2 ^ 64) points.now }
    requires costs { All (λ point. point.cost + price < 2 ^ 64) points.now }
    ensures { IfOk result (λ v. v.items ≡ map (moved_by loss price) points.now) }
{
    let mut all = Vec::with_capacity(alloc, points.len())?;
    push_moved(&mut all, points, loss, price)?;
    Ok(all)
}

/// Puts the points at the end, with the loss added to each need, dPa, and the price to each cost, cents.
pub(crate) fn push_moved(
    all: &mut Vec<Point>,
    points: &[Point],
    loss: u64,
    price: u64,
) -> Result<(), NoMemory>
    requires needs { All (λ point. point.need + loss < 2 ^ 64) points.now }
    requires costs { All (λ point. point.cost + price < 2 ^ 64) points.now }
    ensures items { IfOk result (λ _.
        all.new.items ≡ all.old.items ++ map (moved_by loss price) points.now) }
    ensures within { (cap : ℕ) → NeedsWithin cap all.old.items →
        All (λ point. point.need + loss ≤ cap) points.now → NeedsWithin cap all.new.items }
{
    for point in points {
        all.push(Point {
            need: point.need + loss,
            cost: point.cost + price,
        })?;
    }
    Ok(())
}

/// Puts the point of the price, cents, at the need, dPa, at the end, where it is below the last cost so far.
pub(crate) fn push_cheaper(
    points: &mut Vec<Point>,
    need: u64,
    price: Option<u64>,
) -> Result<(), NoMemory>
    ensures { IfOk result (λ _. points.new.items ≡ with_cheaper need price points.old.items) }
{
    let Some(cost) = price else {
        return Ok(());
    };
    match points.last() {
        Some(last) if last.cost <= cost => Ok(()),
        _ => Ok(points.push(Point { need, cost })?),
    }
}
