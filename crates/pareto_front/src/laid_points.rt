//! Points that are laid in any order, of which a front is made.
ghost use Rattle.std.specs.Prelude.{◌≡◌, ℕ, ◌+◌, ◌<◌, ◌≤◌, ◌^◌, [], All, IfOk};
ghost use Rattle.duct_units.specs.Prices.{lesser};
ghost use Rattle.pareto_front.specs.Front.{IsFront, NeedsWithin, cheapest, shifted};
ghost use Rattle.pareto_front.specs.LaidPoints.{least_among};
ghost use Rattle.pareto_front.specs.Laid.{points_of, IsUpTo};

use crate::few_points;
use crate::front::Front;
use crate::least_prices::LeastPrices;
use crate::parts::{points_within, push_moved};
use crate::point::Point;
use duct_units::NoMemory;
use std::alloc::Global;
use std::marker::Model;

/// Fewer points than one in so many needs are sorted; for more, a price is kept for each need.
const FEW: usize = 64;

/// What is laid: few points as they come, or the least price at each need.
#[derive(Drop)]
pub(crate) enum Laid {
    Few(Vec<Point>),
    Many(LeastPrices),
}

/// Points of fronts that are moved by a loss and a price, up to a greatest need. A contract sees that need and points
/// that cost as little.
///
/// One buffer serves all fronts that are made of them, and each takes exactly the room of its points.
#[derive(Drop)]
pub struct LaidPoints {
    cap: u64,
    laid: Laid,
    kept: Vec<Point>,
}

impl Model for LaidPoints {
    ghost use Rattle.pareto_front.specs.LaidPoints.{Laying};

    ghost Value = { Laying };

    ghost use Rattle.std.specs.Prelude.{ℕ, ◌+◌, ◌<◌, ◌^◌};
    ghost use Rattle.pareto_front.specs.Laid.{points_of, IsUpTo};

    ghost view = { λ a. record { cap = a.cap; points = points_of a.laid } };

    ghost invariant = { λ a. (a.cap + 1 < 2 ^ 32) × IsUpTo a.cap a.laid };
}

impl LaidPoints {
    /// Nothing is laid yet. About `count` points are to come, with needs up to `cap`, dPa.
    pub fn start(alloc: Global, cap: u64, count: usize) -> Result<LaidPoints, NoMemory>
        requires { cap + 1 < 2 ^ 32 }
        ensures { IfOk result (λ laid. laid ≡ record { cap = cap; points = [] }) }
    {
        Ok(LaidPoints {
            cap,
            laid: nothing_laid(alloc, cap, count)?,
            kept: Vec::new(alloc),
        })
    }

    /// Lays the points of the front with a loss more, dPa, and a price more, cents, up to the greatest need.
    pub fn lay(&mut self, front: &Front, loss: u64, price: u64) -> Result<(), NoMemory>
        requires fits { All (λ point. point.cost + price + 1 < 2 ^ 64) front.now }
        ensures least { IfOk result (λ _. (budget : ℕ) → budget ≤ self.old.cap →
            least_among self.new.points budget ≡
            lesser (least_among self.old.points budget) (shifted front.now loss price budget)) }
        ensures cap { self.new.cap ≡ self.old.cap }
    {
        lay_front(&mut self.laid, self.cap, front, loss, price)
    }

    /// The front of all that is laid, which is taken away.
    pub fn front(&mut self, alloc: Global) -> Result<Front, NoMemory>
        ensures value { IfOk result (λ front. (budget : ℕ) →
            cheapest front budget ≡ least_among self.old.points budget) }
        ensures rising { IfOk result IsFront }
        ensures needs { IfOk result (NeedsWithin self.old.cap) }
        ensures clear { IfOk result (λ _. self.new ≡ record self.old { points = [] }) }
    {
        self.kept.clear();
        take_cheaper(&mut self.laid, &mut self.kept)?;
        Front::copied(alloc, self.kept.as_slice())
    }
}

/// Nothing, for about so many points with needs up to `cap`, dPa.
fn nothing_laid(alloc: Global, cap: u64, count: usize) -> Result<Laid, NoMemory>
    requires { cap + 1 < 2 ^ 32 }
    ensures clear { IfOk result (λ laid. points_of laid ≡ []) }
    ensures up_to { IfOk result (IsUpTo cap) }
{
    let needs = cap as usize + 1;
    if count < needs / FEW {
        return Ok(Laid::Few(Vec::with_capacity(alloc, count)?));
    }
    Ok(Laid::Many(LeastPrices::new(alloc, needs)?))
}

/// Lays the points of the front with the loss more, dPa, and the price more, cents, up to the need `cap`, dPa.
fn lay_front(
    laid: &mut Laid,
    cap: u64,
    front: &Front,
    loss: u64,
    price: u64,
) -> Result<(), NoMemory>
    requires up_to { IsUpTo cap laid.old }
    requires narrow { cap + 1 < 2 ^ 32 }
    requires fits { All (λ point. point.cost + price + 1 < 2 ^ 64) front.now }
    ensures least { IfOk result (λ _. (budget : ℕ) → budget ≤ cap →
        least_among (points_of laid.new) budget ≡
        lesser (least_among (points_of laid.old) budget) (shifted front.now loss price budget)) }
    ensures up_to { IsUpTo cap laid.new }
{
    let Some(room) = cap.checked_sub(loss) else {
        return Ok(());
    };
    let points = points_within(front.points(), room);
    match laid {
        Laid::Few(laid) => push_moved(laid, points, loss, price),
        Laid::Many(prices) => {
            prices.lay(points, loss, price);
            Ok(())
        }
    }
}

/// Takes all that is laid away; what is cheaper than everything that needs no more goes into the buffer.
fn take_cheaper(laid: &mut Laid, kept: &mut Vec<Point>) -> Result<(), NoMemory>
    requires { kept.old.items ≡ [] }
    ensures front { IfOk result (λ _. IsFront kept.new.items) }
    ensures value { IfOk result (λ _. (budget : ℕ) →
        cheapest kept.new.items budget ≡ least_among (points_of laid.old) budget) }
    ensures needs { (cap : ℕ) → IsUpTo cap laid.old →
        IfOk result (λ _. NeedsWithin cap kept.new.items) }
    ensures clear { IfOk result (λ _. points_of laid.new ≡ []) }
    ensures up_to { (cap : ℕ) → IsUpTo cap laid.old → IsUpTo cap laid.new }
{
    match laid {
        Laid::Few(points) => few_points::take_cheaper(points, kept),
        Laid::Many(prices) => prices.take_cheaper(kept),
    }
}
