//! Many points: the least price at each need is kept, and the needs are gone through for a front.
ghost use Rattle.std.specs.Prelude.{◌≡◌, ℕ, ◌+◌, ◌<◌, ◌≤◌, ◌^◌, [], All, IfOk, length, map, take, drop};
ghost use Rattle.duct_units.specs.Prices.{lesser};
ghost use Rattle.pareto_front.specs.Front.{IsFront, cheapest, moved_by};
ghost use Rattle.pareto_front.specs.LaidPoints.{least_among};
ghost use Rattle.pareto_front.specs.LeastPrices.{points_from, AreAbsent, AreBetween};

use crate::point::Point;
use duct_units::NoMemory;
use std::alloc::Global;
use std::marker::Model;

/// Stands for no price, cents. No price that is laid reaches it.
const ABSENT: u64 = u64::MAX;

/// The least price that is laid at each need, from 0 on. A contract sees the prices, cents, ABSENT among them.
#[derive(Drop)]
pub(crate) struct LeastPrices {
    prices: Vec<u64>,
    /// No price is there at a need below this, dPa.
    from: usize,
    /// No price is there at this need, dPa, or above.
    until: usize,
}

impl Model for LeastPrices {
    ghost use Rattle.std.specs.Prelude.{ℕ, List as Sequence};

    ghost Value = { Sequence ℕ };

    ghost use Rattle.pareto_front.specs.LeastPrices.{AreBetween};

    ghost view = { λ a. a.prices.items };

    ghost invariant = { λ a. AreBetween a.from a.until a.prices.items };
}

impl LeastPrices {
    /// No price at any of so many needs.
    pub(crate) fn new(alloc: Global, needs: usize) -> Result<LeastPrices, NoMemory>
        ensures clear { IfOk result (λ prices. points_from 0 prices ≡ []) }
        ensures wide { IfOk result (λ prices. length prices ≡ needs) }
    {
        Ok(LeastPrices {
            prices: vec![in alloc; ABSENT; needs]?,
            from: needs,
            until: 0,
        })
    }

    /// Lays each of the points with the loss more, dPa, and the price more, cents.
    pub(crate) fn lay(&mut self, points: &[Point], loss: u64, price: u64)
        requires front { IsFront points.now }
        requires needs { All (λ point. point.need + loss < length self.old) points.now }
        requires costs { All (λ point. point.cost + price + 1 < 2 ^ 64) points.now }
        ensures least { (budget : ℕ) → least_among (points_from 0 self.new) budget ≡
            lesser (least_among (points_from 0 self.old) budget)
            (least_among (map (moved_by loss price) points.now) budget) }
        ensures wide { length self.new ≡ length self.old }
    {
        let (Some(first), Some(last)) = (points.first(), points.last()) else {
            return;
        };
        self.from = self.from.min((first.need + loss) as usize);
        self.until = self.until.max((last.need + loss) as usize + 1);
        lay_points(&mut self.prices, points, loss, price);
    }

    /// Takes all prices away; the points that cost less than all of less need go into the buffer.
    pub(crate) fn take_cheaper(&mut self, kept: &mut Vec<Point>) -> Result<(), NoMemory>
        requires { kept.old.items ≡ [] }
        ensures front { IfOk result (λ _. IsFront kept.new.items) }
        ensures value { IfOk result (λ _. (budget : ℕ) →
            cheapest kept.new.items budget ≡ least_among (points_from 0 self.old) budget) }
        ensures needs { IfOk result (λ _.
            All (λ point. point.need < length self.old) kept.new.items) }
        ensures clear { IfOk result (λ _. points_from 0 self.new ≡ []) }
        ensures wide { length self.new ≡ length self.old }
    {
        take_cheaper(&mut self.prices, self.from, self.until, kept)?;
        self.from = self.prices.len();
        self.until = 0;
        Ok(())
    }
}

/// Lays each of the points with the loss more, dPa, and the price more, cents.
fn lay_points(prices: &mut [u64], points: &[Point], loss: u64, price: u64)
    requires needs { All (λ point. point.need + loss < length prices.old) points.now }
    requires costs { All (λ point. point.cost + price + 1 < 2 ^ 64) points.now }
    ensures least { (budget : ℕ) → least_among (points_from 0 prices.new) budget ≡
        lesser (least_among (points_from 0 prices.old) budget)
        (least_among (map (moved_by loss price) points.now) budget) }
    ensures wide { length prices.new ≡ length prices.old }
    ensures before { (i : ℕ) → All (λ point. i ≤ point.need + loss) points.now →
        take i prices.new ≡ take i prices.old }
    ensures after { (i : ℕ) → All (λ point. point.need + loss < i) points.now →
        drop i prices.new ≡ drop i prices.old }
{
    for point in points {
        let need = (point.need + loss) as usize;
        prices[need] = prices[need].min(point.cost + price);
    }
}

/// Takes the prices at the needs from `from` to `until` away, dPa; the points that cost less than all before them go
/// into the buffer.
fn take_cheaper(
    prices: &mut [u64],
    from: usize,
    until: usize,
    kept: &mut Vec<Point>,
) -> Result<(), NoMemory>
    requires empty { kept.old.items ≡ [] }
    requires between { AreBetween from until prices.old }
    ensures front { IfOk result (λ _. IsFront kept.new.items) }
    ensures value { IfOk result (λ _. (budget : ℕ) →
        cheapest kept.new.items budget ≡ least_among (points_from 0 prices.old) budget) }
    ensures needs { IfOk result (λ _. All (λ point. point.need < length prices.old) kept.new.items) }
    ensures absent { IfOk result (λ _. AreAbsent prices.new) }
    ensures between { AreBetween from until prices.new }
    ensures wide { length prices.new ≡ length prices.old }
{
    let mut best = ABSENT;
    for need in from..until {
        let cost = prices[need];
        prices[need] = ABSENT;
        if cost < best {
            best = cost;
            kept.push(Point {
                need: need as u64,
                cost,
            })?;
        }
    }
    Ok(())
}
