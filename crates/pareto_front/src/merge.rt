//! The cheaper of two fronts, by one sweep over their needs.
ghost use Rattle.std.specs.Prelude.{◌≡◌, ℕ, IfOk};
ghost use Rattle.duct_units.specs.Prices.{lesser};
ghost use Rattle.pareto_front.specs.Front.{IsFront, cheapest};
ghost use Rattle.pareto_front.specs.Sweep.{lesser_offer};

use crate::parts::push_cheaper;
use crate::point::Point;
use crate::sweep::{Step, Sweep};
use duct_units::{NoMemory, lesser};
use std::alloc::Global;

/// The points at which the cheaper of two fronts gets cheaper.
pub(crate) fn either_points(alloc: Global, a: &[Point], b: &[Point]) -> Result<Vec<Point>, NoMemory>
    requires a_front { IsFront a.now }
    requires b_front { IsFront b.now }
    ensures front { IfOk result (λ v. IsFront v.items) }
    ensures prices { IfOk result (λ v. (budget : ℕ) →
        cheapest v.items budget ≡ lesser (cheapest a.now budget) (cheapest b.now budget)) }
{
    let mut points = Vec::with_capacity(alloc, a.len() + b.len())?;
    let mut sweep = Sweep::start(a, b);
    while let Some(step) = sweep.next() {
        push_cheaper(&mut points, step.need, lesser_cost(step))?;
    }
    Ok(points)
}

/// What the cheaper front costs at the step, cents.
fn lesser_cost(step: Step) -> Option<u64>
    ensures { result ≡ lesser_offer step }
{
    lesser(
        step.left.map(|point| point.cost),
        step.right.map(|point| point.cost),
    )
}
