//! Few points: they are laid as they come, and sorted for a front.
ghost use Rattle.std.specs.Prelude.{◌≡◌, ℕ, [], IfOk};
ghost use Rattle.pareto_front.specs.Front.{IsFront, NeedsWithin, cheapest};
ghost use Rattle.pareto_front.specs.LaidPoints.{least_among};
ghost use Rattle.pareto_front.specs.InOrder.{IsInOrder};

use crate::parts::push_cheaper;
use crate::point::Point;
use duct_units::NoMemory;

/// Takes the points away; what is cheaper than everything that needs no more goes into the buffer.
pub(crate) fn take_cheaper(laid: &mut Vec<Point>, kept: &mut Vec<Point>) -> Result<(), NoMemory>
    requires { kept.old.items ≡ [] }
    ensures front { IfOk result (λ _. IsFront kept.new.items) }
    ensures value { IfOk result (λ _. (budget : ℕ) →
        cheapest kept.new.items budget ≡ least_among laid.old.items budget) }
    ensures needs { (cap : ℕ) → NeedsWithin cap laid.old.items →
        IfOk result (λ _. NeedsWithin cap kept.new.items) }
    ensures clear { IfOk result (λ _. laid.new.items ≡ []) }
    ensures up_to { (cap : ℕ) → NeedsWithin cap laid.old.items → NeedsWithin cap laid.new.items }
{
    // A greater size mostly loses less, so that sizes are laid in falling need.
    laid.reverse();
    laid.sort_unstable_by_key(|point| (point.need, point.cost));
    keep_cheaper(laid.as_slice(), kept)?;
    laid.clear();
    Ok(())
}

/// Keeps the points that cost less than all before them, of points in order.
fn keep_cheaper(sorted: &[Point], kept: &mut Vec<Point>) -> Result<(), NoMemory>
    requires empty { kept.old.items ≡ [] }
    requires order { IsInOrder sorted.now }
    ensures front { IfOk result (λ _. IsFront kept.new.items) }
    ensures value { IfOk result (λ _. (budget : ℕ) →
        cheapest kept.new.items budget ≡ least_among sorted.now budget) }
    ensures needs { (cap : ℕ) → NeedsWithin cap sorted.now →
        IfOk result (λ _. NeedsWithin cap kept.new.items) }
{
    for point in sorted {
        push_cheaper(kept, point.need, Some(point.cost))?;
    }
    Ok(())
}
