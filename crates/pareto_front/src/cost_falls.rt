//! Many fronts added up by need: where all are there, what they cost there, and what the cost falls by at each need.
ghost use Rattle.std.specs.Prelude.{◌≡◌, ℕ, ◌+◌, ◌<◌, ◌≤◌, ◌^◌, [], ◌∷◌, All, IfOk, IfNone, IfSome, IsFalse, IsTrue};
ghost use Rattle.std.specs.Prelude.{None, Some, length, sum};
ghost use Rattle.duct_units.specs.Prices.{both_of};
ghost use Rattle.pareto_front.specs.Front.{IsFront, cheapest};
ghost use Rattle.pareto_front.specs.FrontSum.{IsBoth, greatest_cost};
ghost use Rattle.pareto_front.specs.CostFalls.{AreFalls, falls_to, points_of};

use crate::front::Front;
use crate::parts::points_within;
use crate::point::Point;
use duct_units::{List, NoMemory};
use std::alloc::Global;
use std::marker::Model;

/// What fronts cost together. A contract sees the front of it.
#[derive(Drop)]
pub(crate) struct CostFalls {
    /// The least need at which all fronts are there, and what they cost there together.
    first: Point,
    /// What the cost falls by at each need, from 0 on, cents. Those up to the first point tell nothing.
    falls: Vec<u64>,
}

impl Model for CostFalls {
    ghost use Rattle.std.specs.Prelude.{List as Sequence};
    ghost use Rattle.pareto_front.specs.declared.point.Point.{Point};

    ghost Value = { Sequence Point };

    ghost use Rattle.pareto_front.specs.CostFalls.{AreFalls, points_of};

    ghost view = { λ a. points_of a.first a.falls.items };

    ghost invariant = { λ a. AreFalls a.first a.falls.items };
}

impl CostFalls {
    /// The sum of no front, with a place for each of so many needs.
    pub(crate) fn new(alloc: Global, needs: usize) -> Result<CostFalls, NoMemory>
        requires { 0 < needs }
        ensures { IfOk result (λ sum. sum ≡ record { need = 0; cost = 0 } ∷ []) }
    {
        Ok(CostFalls {
            first: Point { need: 0, cost: 0 },
            falls: vec![in alloc; 0; needs]?,
        })
    }

    /// Adds the front, if it has a point, and a place for each of its needs is there.
    pub(crate) fn add(&mut self, front: &Front) -> bool
        requires { greatest_cost self.old + greatest_cost front.now < 2 ^ 64 }
        ensures added { IsTrue result → IsBoth self.old front.now self.new }
        ensures kept { IsFalse result → self.new ≡ self.old }
    {
        match add_front(self.first, &mut self.falls, front) {
            Some(first) => {
                self.first = first;
                true
            }
            None => false,
        }
    }

    /// The front of all that is added.
    pub(crate) fn front(self, alloc: Global) -> Result<Front, NoMemory>
        ensures { IfOk result (λ front. front ≡ self) }
    {
        let CostFalls { first, falls } = self;
        let points = points_from(alloc, first, falls.as_slice())?;
        Ok(Front::from_points(List::from_vec(points)))
    }
}

/// Adds the front to the falls, and answers the new first point, if the front has a place.
fn add_front(first: Point, falls: &mut [u64], front: &Front) -> Option<Point>
    requires falls { AreFalls first falls.old }
    requires fits { first.cost + greatest_cost front.now < 2 ^ 64 }
    ensures both { IfSome result (λ new.
        IsBoth (points_of first falls.old) front.now (points_of new falls.new)) }
    ensures falls { IfSome result (λ new. AreFalls new falls.new) }
    ensures kept { IfNone result (falls.new ≡ falls.old) }
    ensures wide { length falls.new ≡ length falls.old }
{
    let points = front.points();
    let (Some(start), Some(last)) = (points.first(), points.last()) else {
        return None;
    };
    if last.need >= falls.len() as u64 {
        return None;
    }
    let need = first.need.max(start.need);
    let cost = front.cheapest(need)?;
    Some(add_points(first, falls, points, need, cost))
}

/// Adds the points of a front to the falls, and answers the new first point, at the need, dPa, where the front costs so
/// much, cents.
fn add_points(first: Point, falls: &mut [u64], points: &[Point], need: u64, cost: u64) -> Point
    requires falls { AreFalls first falls.old }
    requires front { IsFront points.now }
    requires needs { All (λ point. point.need < length falls.old) points.now }
    requires later { first.need ≤ need }
    requires in_range { need < length falls.old }
    requires cost { cheapest points.now need ≡ Some cost }
    requires start { (budget : ℕ) → budget < need →
        both_of (cheapest (points_of first falls.old) budget) (cheapest points.now budget) ≡ None }
    requires fits { first.cost + cost < 2 ^ 64 }
    ensures both { IsBoth (points_of first falls.old) points.now (points_of result falls.new) }
    ensures falls { AreFalls result falls.new }
    ensures wide { length falls.new ≡ length falls.old }
{
    let sum = Point {
        need,
        cost: cost_at(first, falls, need) + cost,
    };
    lay_falls(falls, points, sum, cost);
    sum
}

/// What all that is added costs together at the need, dPa, from the first point on.
fn cost_at(first: Point, falls: &[u64], need: u64) -> u64
    requires falls { AreFalls first falls.now }
    requires later { first.need ≤ need }
    requires in_range { need < length falls.now }
    ensures { result + falls_to need falls.now ≡ first.cost + falls_to first.need falls.now }
{
    let mut cost = first.cost;
    for later in first.need as usize + 1..need as usize + 1 {
        cost -= falls[later];
    }
    cost
}

/// Lays what each point above the first need costs less than the one before it, where the front costs so much, cents,
/// at that need. What it costs there is in the first cost.
fn lay_falls(falls: &mut [u64], points: &[Point], first: Point, cost: u64)
    requires front { IsFront points.now }
    requires needs { All (λ point. point.need < length falls.old) points.now }
    requires cost { cheapest points.now first.need ≡ Some cost }
    requires room { sum falls.old + cost ≤ first.cost + falls_to first.need falls.old }
    requires fits { first.cost < 2 ^ 64 }
    ensures falls { (budget price : ℕ) → first.need ≤ budget → cheapest points.now budget ≡ Some price →
        falls_to budget falls.new + price ≡ falls_to budget falls.old + cost }
    ensures wide { length falls.new ≡ length falls.old }
{
    let mut before = cost;
    for i in points_within(points, first.need).len()..points.len() {
        let point = points[i];
        falls[point.need as usize] += before - point.cost;
        before = point.cost;
    }
}

/// The first point, and one at each later need at which the cost falls.
fn points_from(alloc: Global, first: Point, falls: &[u64]) -> Result<Vec<Point>, NoMemory>
    requires { AreFalls first falls.now }
    ensures { IfOk result (λ v. v.items ≡ points_of first falls.now) }
{
    let mut points = vec![in alloc; first]?;
    let mut cost = first.cost;
    for need in first.need as usize + 1..falls.len() {
        let fall = falls[need];
        if fall > 0 {
            cost -= fall;
            points.push(Point {
                need: need as u64,
                cost,
            })?;
        }
    }
    Ok(points)
}
