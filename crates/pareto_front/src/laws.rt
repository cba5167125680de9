//! What a front's prices tell of its points, and its points of its prices.
//!
//! Each call does nothing. A proof learns its clause where the call stands.
ghost use Rattle.std.specs.Prelude.{◌≡◌, ℕ, ◌+◌, ◌<◌, ◌≤◌, ◌^◌, All, Some};
ghost use Rattle.std.specs.Option.{ForSome};
ghost use Rattle.duct_units.specs.Prices.{both_of};
ghost use Rattle.pareto_front.specs.Front.{IsFront, CostsNoMore, NeedsWithin, CostsWithin, cheapest};
ghost use Rattle.pareto_front.specs.declared.point.TheConstants.{COST_LIMIT};

use crate::front::Front;

/// Two fronts with the same cheapest at every budget have the same points.
pub fn front_is_its_prices(a: &Front, b: &Front)
    requires { (budget : ℕ) → cheapest a.now budget ≡ cheapest b.now budget }
    ensures { a.now ≡ b.now }
{
    tell_front(a);
    tell_front(b);
}

/// Two fronts without a need above `cap`, dPa, that have the same cheapest up to it, have the same points.
pub fn capped_front_is_its_prices(a: &Front, b: &Front, cap: u64)
    requires a_capped { NeedsWithin cap a.now }
    requires b_capped { NeedsWithin cap b.now }
    requires same { (budget : ℕ) → budget ≤ cap → cheapest a.now budget ≡ cheapest b.now budget }
    ensures { a.now ≡ b.now }
{
    tell_front(a);
    tell_front(b);
}

/// A greater budget costs no more.
pub fn cheapest_never_rises(front: &Front)
    ensures { (less more : ℕ) → less ≤ more →
        CostsNoMore (cheapest front.now more) (cheapest front.now less) }
{
    tell_front(front);
}

/// Each point is what its own need buys.
pub fn points_are_prices(front: &Front)
    ensures { All (λ point. cheapest front.now point.need ≡ Some point.cost) front.now }
{
    tell_front(front);
}

/// Two fronts whose costs are within bounds that add up within 64 bits may be added.
pub fn sums_fit(a: &Front, b: &Front, x: u64, y: u64)
    requires a_bounded { CostsWithin x a.now }
    requires b_bounded { CostsWithin y b.now }
    requires bounds { x + y < 2 ^ 64 }
    ensures { (budget : ℕ) → ForSome
        (both_of (cheapest a.now budget) (cheapest b.now budget)) (λ cost. cost < 2 ^ 64) }
{}

/// The limit of costs as a number, cents.
pub fn limit_as_number()
    ensures { COST_LIMIT ≡ 10 ^ 18 }
{}

/// Tells a proof that the points are a front.
fn tell_front(front: &Front)
    ensures { IsFront front.now }
{
    let _ = front.points();
}
