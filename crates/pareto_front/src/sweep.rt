//! A sweep over the needs of two fronts, in rising order, each need once.
ghost use Rattle.std.specs.Prelude.{◌≡◌, ◌+◌, ◌<◌, ◌≤◌, IfNone, IfSome, Some, length};
ghost use Rattle.duct_units.specs.Prices.{lesser};
ghost use Rattle.pareto_front.specs.Front.{IsFront, cheapest};
ghost use Rattle.pareto_front.specs.Sweep.{cost_of, next_need, IsReadTo};

use crate::point::Point;
use duct_units::lesser;
use std::marker::Model;

/// A need at which one of the fronts has a point, dPa, and the last point of each within it.
#[derive(Clone, Copy)]
pub(crate) struct Step {
    pub(crate) need: u64,
    pub(crate) left: Option<Point>,
    pub(crate) right: Option<Point>,
}

/// Two fronts that are read together, need by need.
#[derive(Drop)]
pub(crate) struct Sweep<'a> {
    left: Reading<'a>,
    right: Reading<'a>,
}

impl<'a> Model for Sweep<'a> {
    ghost use Rattle.pareto_front.specs.Sweep.{Progress, IsEven};
    ghost use Rattle.pareto_front.specs.SweepFields.{progress_of};

    ghost Value = { Progress };

    ghost view = { λ sweep. progress_of sweep.left sweep.right };

    ghost invariant = { λ sweep. IsEven (progress_of sweep.left sweep.right) };
}

impl<'a> Sweep<'a> {
    ghost use Rattle.std.specs.Prelude.{◌≡◌, ◌<◌, IfNone, IfSome};
    ghost use Rattle.pareto_front.specs.Front.{IsFront};
    ghost use Rattle.pareto_front.specs.Sweep.{points_left, Steps};

    pub(crate) fn start(left: &'a [Point], right: &'a [Point]) -> Sweep<'a>
        requires left_front { IsFront left.now }
        requires right_front { IsFront right.now }
        ensures { result
            ≡ record { left = left.now; right = right.now; left_read = 0; right_read = 0 } }
    {
        Sweep {
            left: Reading::start(left),
            right: Reading::start(right),
        }
    }

    /// The next need, and what each front offers there.
    pub(crate) fn next(&mut self) -> Option<Step>
        ensures some { IfSome result (Steps self.old self.new) }
        ensures fewer { IfSome result (λ _. points_left self.new < points_left self.old) }
        ensures none { IfNone result (points_left self.old ≡ 0) }
        ensures kept { IfNone result (self.new ≡ self.old) }
    {
        let need = lesser(self.left.next_need(), self.right.next_need())?;
        Some(Step {
            need,
            left: self.left.last_within(need),
            right: self.right.last_within(need),
        })
    }
}

/// A front that is read from its first point on.
#[derive(Drop)]
struct Reading<'a> {
    points: &'a [Point],
    /// The number of points read so far.
    read: usize,
    ghost in_range: { read ≤ length points.now },
}

impl<'a> Reading<'a> {
    fn start(points: &'a [Point]) -> Reading<'a>
        ensures points { result.points.now ≡ points.now }
        ensures read { result.read ≡ 0 }
    {
        Reading { points, read: 0 }
    }

    /// The need of the next point, dPa.
    fn next_need(&self) -> Option<u64>
        ensures { result ≡ next_need self.now.points.now self.now.read }
    {
        self.points.get(self.read).map(|point| point.need)
    }

    /// The last point within this need, dPa. No point that is left needs less.
    fn last_within(&mut self, need: u64) -> Option<Point>
        requires front { IsFront self.old.points.now }
        requires next { IsReadTo need self.old.points.now self.old.read }
        ensures cost { cost_of result ≡ cheapest self.old.points.now need }
        ensures points { self.new.points.now ≡ self.old.points.now }
        ensures read { IsReadTo (need + 1) self.new.points.now self.new.read }
        ensures forward { self.old.read ≤ self.new.read }
        ensures onward { next_need self.old.points.now self.old.read ≡ Some need
            → self.old.read < self.new.read }
    {
        if self.next_need() == Some(need) {
            self.read += 1;
        }
        self.points[..self.read].last().copied()
    }
}
