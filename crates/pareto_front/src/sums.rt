//! Two fronts added up: what both cost together, from the first need on at which both are there.
ghost use Rattle.std.specs.Prelude.{◌≡◌, ℕ, ◌+◌, ◌<◌, ◌≤◌, ◌^◌, IfOk, Some, length, take};
ghost use Rattle.std.specs.Option.{ForSome};
ghost use Rattle.duct_units.specs.Prices.{both_of};
ghost use Rattle.pareto_front.specs.Front.{IsFront, cheapest};
ghost use Rattle.pareto_front.specs.Sweep.{IsReadTo, last_cost, next_need};

use crate::parts::points_within;
use crate::point::Point;
use duct_units::NoMemory;
use std::alloc::Global;

/// The points of both fronts together, from the first need on at which both are there.
///
/// From there on each has a last cost, so no step asks whether there is one.
pub(crate) fn both_points(alloc: Global, a: &[Point], b: &[Point]) -> Result<Vec<Point>, NoMemory>
    requires a_front { IsFront a.now }
    requires b_front { IsFront b.now }
    requires fits { (budget : ℕ) → ForSome
        (both_of (cheapest a.now budget) (cheapest b.now budget)) (λ cost. cost < 2 ^ 64) }
    ensures front { IfOk result (λ v. IsFront v.items) }
    ensures prices { IfOk result (λ v. (budget : ℕ) →
        cheapest v.items budget ≡ both_of (cheapest a.now budget) (cheapest b.now budget)) }
{
    let mut points = Vec::with_capacity(alloc, a.len() + b.len())?;
    let (Some(first), Some(other)) = (a.first(), b.first()) else {
        return Ok(points);
    };
    let need = first.need.max(other.need);
    let mut i = points_within(a, need).len();
    let mut j = points_within(b, need).len();
    points.push(Point {
        need,
        cost: last_costs(a, i, b, j),
    })?;
    while i < a.len() && j < b.len() {
        let need = a[i].need.min(b[j].need);
        i = read_past(a, i, need);
        j = read_past(b, j, need);
        points.push(Point {
            need,
            cost: last_costs(a, i, b, j),
        })?;
    }
    while i < a.len() {
        let need = a[i].need;
        i = read_past(a, i, need);
        points.push(Point {
            need,
            cost: last_costs(a, i, b, j),
        })?;
    }
    while j < b.len() {
        let need = b[j].need;
        j = read_past(b, j, need);
        points.push(Point {
            need,
            cost: last_costs(a, i, b, j),
        })?;
    }
    Ok(points)
}

/// How many points need no more than this, dPa, where so many need less.
fn read_past(points: &[Point], read: usize, need: u64) -> usize
    requires front { IsFront points.now }
    requires before { IsReadTo need points.now read }
    requires more { read < length points.now }
    ensures past { IsReadTo (need + 1) points.now result }
    ensures bound { result ≤ length points.now }
    ensures forward { read ≤ result }
    ensures onward { next_need points.now read ≡ Some need → read < result }
{
    if points[read].need == need {
        read + 1
    } else {
        read
    }
}

/// What the last of the first `i` points and the last of the other's first `j` cost together, cents.
fn last_costs(a: &[Point], i: usize, b: &[Point], j: usize) -> u64
    requires some_of_a { 0 < i }
    requires some_of_b { 0 < j }
    requires in_a { i ≤ length a.now }
    requires in_b { j ≤ length b.now }
    requires fits { ForSome (both_of (last_cost (take i a.now)) (last_cost (take j b.now)))
        (λ cost. cost < 2 ^ 64) }
    ensures { both_of (last_cost (take i a.now)) (last_cost (take j b.now)) ≡ Some result }
{
    a[i - 1].cost + b[j - 1].cost
}
