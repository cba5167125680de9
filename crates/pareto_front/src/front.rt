//! A front: what each budget of pressure buys at the least cost.
ghost use Rattle.std.specs.Prelude.{◌≡◌, ℕ, ◌+◌, ◌<◌, ◌≤◌, ◌^◌, ◌↔◌, [], ◌∷◌, ◌++◌};
ghost use Rattle.std.specs.Prelude.{All, Contains, IfOk, IsNone};
ghost use Rattle.std.specs.Option.{ForSome};
ghost use Rattle.pareto_front.specs.Front.{IsFront, IsBelowFirst, NeedsWithin, CostsWithin};
ghost use Rattle.duct_units.specs.Prices.{lesser, both_of};
ghost use Rattle.pareto_front.specs.Front.{cheapest, shifted};

use crate::merge::either_points;
use crate::parts::{last_cost, moved, points_within};
use crate::point::Point;
use crate::sums::both_points;
use duct_units::{List, NoMemory};
use std::alloc::Global;
use std::marker::Model;

/// Points in rising need and falling cost. A contract sees the list of them.
#[derive(Debug, Drop)]
pub struct Front {
    points: List<Point>,
}

impl Model for Front {
    ghost use Rattle.std.specs.Prelude.{List as Sequence};
    ghost use Rattle.pareto_front.specs.declared.point.Point.{Point};

    ghost Value = { Sequence Point };

    ghost use Rattle.pareto_front.specs.Front.{IsFront};

    ghost view = { λ front. front.points };

    ghost invariant = { λ front. IsFront front.points };
}

impl Front {
    /// The front of what no budget buys.
    pub fn empty(alloc: Global) -> Front
        ensures { result ≡ [] }
    {
        Front {
            points: List::from_vec(Vec::new(alloc)),
        }
    }

    /// The front of what needs nothing and costs nothing.
    pub fn zero(alloc: Global) -> Result<Front, NoMemory>
        ensures { IfOk result (λ front. front ≡ record { need = 0; cost = 0 } ∷ []) }
    {
        let points = vec![in alloc; Point { need: 0, cost: 0 }]?;
        Ok(Front {
            points: List::from_vec(points),
        })
    }

    /// The front of these points, of which each needs more and costs less than the one before it.
    pub fn from_points(points: List<Point>) -> Front
        requires { IsFront points }
        ensures { result ≡ points }
    {
        Front { points }
    }

    /// The front of these points, in exactly their room.
    pub(crate) fn copied(alloc: Global, points: &[Point]) -> Result<Front, NoMemory>
        requires { IsFront points.now }
        ensures { IfOk result (λ front. front ≡ points.now) }
    {
        let points = Vec::from_slice(alloc, points)?;
        Ok(Front::from_points(List::from_vec(points)))
    }

    /// The points in rising need and falling cost.
    pub fn points(&self) -> &[Point]
        ensures value { result.now ≡ self.now }
        ensures front { IsFront self.now }
    {
        self.points.as_slice()
    }

    /// The cost of the last point whose need is within the budget, cents, by a binary search.
    pub fn cheapest(&self, budget: u64) -> Option<u64>
        ensures value { result ≡ cheapest self.now budget }
        ensures none { IsNone result ↔ IsBelowFirst budget self.now }
    {
        last_cost(points_within(self.points(), budget))
    }

    /// The same with a loss more, dPa, and a price more, cents, up to the need `cap`.
    ///
    /// Reserves once, exactly the room of the points that it keeps.
    pub fn shift(&self, alloc: Global, loss: u64, price: u64, cap: u64) -> Result<Front, NoMemory>
        requires fits { All (λ point. point.cost + price < 2 ^ 64) self.now }
        ensures value { IfOk result (λ front. (budget : ℕ) → budget ≤ cap →
            cheapest front budget ≡ shifted self.now loss price budget) }
        ensures capped { IfOk result (NeedsWithin cap) }
        ensures bounded { (most : ℕ) → CostsWithin most self.now →
            IfOk result (CostsWithin (most + price)) }
    {
        let Some(room) = cap.checked_sub(loss) else {
            return Ok(Front::empty(alloc));
        };
        let points = moved(alloc, points_within(self.points(), room), loss, price)?;
        Ok(Front {
            points: List::from_vec(points),
        })
    }

    /// At each budget the cheaper of the two, or the one that is there.
    ///
    /// Reserves once, the room of the points of both. The room of the points left out stays free.
    pub fn either(alloc: Global, a: &Front, b: &Front) -> Result<Front, NoMemory>
        ensures value { IfOk result (λ front. (budget : ℕ) →
            cheapest front budget ≡ lesser (cheapest a.now budget) (cheapest b.now budget)) }
        ensures among { IfOk result (λ front. All (Contains (a.now ++ b.now)) front) }
    {
        let points = either_points(alloc, a.points(), b.points())?;
        Ok(Front {
            points: List::from_vec(points),
        })
    }

    /// At each budget both together, where both are there. The two share the budget, so that costs
    /// add and needs don't.
    ///
    /// Reserves once, the room of the points of both. What isn't filled of it stays free.
    pub fn both(alloc: Global, a: &Front, b: &Front) -> Result<Front, NoMemory>
        requires fits { (budget : ℕ) → ForSome
            (both_of (cheapest a.now budget) (cheapest b.now budget)) (λ cost. cost < 2 ^ 64) }
        ensures value { IfOk result (λ front. (budget : ℕ) →
            cheapest front budget ≡ both_of (cheapest a.now budget) (cheapest b.now budget)) }
        ensures needs { (most : ℕ) → NeedsWithin most a.now → NeedsWithin most b.now →
            IfOk result (NeedsWithin most) }
        ensures bounded { (x y : ℕ) → CostsWithin x a.now → CostsWithin y b.now →
            IfOk result (CostsWithin (x + y)) }
    {
        let points = both_points(alloc, a.points(), b.points())?;
        Ok(Front {
            points: List::from_vec(points),
        })
    }
}
