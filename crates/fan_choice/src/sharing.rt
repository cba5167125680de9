//! The cheapest way to share one fan's pressure out between the two sides.
ghost use Rattle.std.specs.Prelude.{◌≡◌, ◌<◌, ◌≤◌, All, drop, length, take};
ghost use Rattle.duct_definitions.specs.declared.limits.TheConstants.{MAX_FAN_COST};
ghost use Rattle.pareto_front.specs.Front.{IsFront};
ghost use Rattle.pareto_front.specs.Sweep.{last_cost};
ghost use Rattle.fan_choice.specs.Sharing.{best_shared, share};
ghost use Rattle.pareto_front.specs.declared.point.TheConstants.{COST_LIMIT};

use crate::cheaper::{Offer, cheaper};
use crate::choice::Choice;
use duct_definitions::NetFan;
use pareto_front::Point;

impl Offer for Choice {
    ghost price = { λ choice. choice.cost };

    fn cost(&self) -> u64 {
        self.cost
    }
}

/// The first cheapest way to share the fan's pressure out. The supply points rise in need, so the return points that
/// are left for them only get fewer, and each is passed once.
pub(crate) fn best_shared(
    number: u32,
    fan: &NetFan,
    supply: &[Point],
    back: &[Point],
) -> Option<Choice>
    requires fan { fan.now.cost ≤ MAX_FAN_COST }
    requires supply_front { IsFront supply.now }
    requires affordable { All (λ point. point.need ≤ fan.now.pressure) supply.now }
    requires back_front { IsFront back.now }
    requires supply_costs { All (λ point. point.cost < COST_LIMIT) supply.now }
    requires back_costs { All (λ point. point.cost < COST_LIMIT) back.now }
    ensures { result ≡ best_shared number fan.now supply.now back.now }
{
    let mut rest = back;
    let mut best = None;
    for point in supply {
        rest = within(rest, fan.pressure - point.need);
        best = cheaper(best, share(number, fan, *point, rest));
    }
    best
}

/// The supply side has the point's need, and the return side the last of what is left for it, if anything is.
fn share(number: u32, fan: &NetFan, point: Point, rest: &[Point]) -> Option<Choice>
    requires fan { fan.now.cost ≤ MAX_FAN_COST }
    requires need { point.need ≤ fan.now.pressure }
    requires cost { point.cost < COST_LIMIT }
    requires rest_costs { All (λ point. point.cost < COST_LIMIT) rest.now }
    ensures { result ≡ share number fan.now point (last_cost rest.now) }
{
    let last = rest.last()?;
    Some(Choice {
        fan: number,
        back: None,
        cost: fan.cost + point.cost + last.cost,
        supply_budget: point.need,
        return_budget: fan.pressure - point.need,
    })
}

/// The points that need no more than this, dPa. It reads from the last point back, and no further than it must.
pub(crate) fn within(points: &[Point], need: u64) -> &[Point]
    requires { IsFront points.now }
    ensures part { result.now ≡ take (length result.now) points.now }
    ensures within { All (λ point. point.need ≤ need) result.now }
    ensures beyond { All (λ point. need < point.need) (drop (length result.now) points.now) }
{
    let mut count = points.len();
    while count > 0 && points[count - 1].need > need {
        count -= 1;
    }
    &points[..count]
}
