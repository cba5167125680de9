//! The choice of the fans: of each fan the cheapest way to share its pressure out, or to let it stand beside a return
//! fan, and of these the cheapest.
ghost use Rattle.std.specs.Prelude.{◌≡◌, ◌+◌, ◌<◌, ◌≤◌, ◌↔◌, All, IfNone, IfSome, IsNone};
ghost use Rattle.duct_definitions.specs.declared.limits.TheConstants.{MAX_FAN_COST};
ghost use Rattle.pareto_front.specs.Front.{IsFront};
ghost use Rattle.fan_choice.specs.Choice.{IsChoiceOf, NoFanCovers, NoneIsPriced};
ghost use Rattle.fan_choice.specs.OwnFans.{best_of};
ghost use Rattle.pareto_front.specs.declared.point.TheConstants.{COST_LIMIT};

use crate::cheaper::cheaper;
use crate::choice::Choice;
use crate::own_fans::{ReturnOffer, best_beside, best_return};
use crate::sharing::{best_shared, within};
use duct_definitions::NetFan;
use net_model::Network;
use pareto_front::{Front, Point};

/// The fans and the budgets of the least cost of fans, supply and return together; of equal ones the first fan, then no
/// return fan or else the first, and then the least supply budget. The fronts tell what each budget buys on the supply
/// and on the return side.
pub fn choose(net: &Network, supply: &Front, back: &Front) -> Option<Choice>
    requires supply { All (λ point. point.cost < COST_LIMIT) supply.now }
    requires back { All (λ point. point.cost < COST_LIMIT) back.now }
    ensures some { IfSome result (λ choice. IsChoiceOf net.now supply.now back.now choice) }
    ensures none { IsNone result ↔ NoFanCovers net.now supply.now back.now }
    ensures unpriced { IfNone result (NoneIsPriced net.now supply.now back.now) }
{
    let supply_points = supply.points();
    let back_points = back.points();
    let own = best_return(net, back_points);
    let mut best = None;
    for number in 0..net.fan_count() {
        let fan = net.fan(number);
        best = cheaper(best, best_of(number, &fan, supply_points, back_points, own));
    }
    best
}

/// The cheapest way of one fan: it serves both sides, or the supply side beside the return side's own fan. Of equal
/// ones it serves both.
fn best_of(
    number: u32,
    fan: &NetFan,
    supply: &[Point],
    back: &[Point],
    own: Option<ReturnOffer>,
) -> Option<Choice>
    requires fan { fan.now.cost ≤ MAX_FAN_COST }
    requires supply_front { IsFront supply.now }
    requires back_front { IsFront back.now }
    requires supply_costs { All (λ point. point.cost < COST_LIMIT) supply.now }
    requires back_costs { All (λ point. point.cost < COST_LIMIT) back.now }
    requires own { IfSome own (λ offer. offer.cost < MAX_FAN_COST + COST_LIMIT) }
    ensures { result ≡ best_of number fan.now supply.now back.now own }
{
    let affordable = within(supply, fan.pressure);
    let shared = best_shared(number, fan, affordable, back);
    let beside = best_beside(number, fan, affordable, own);
    cheaper(shared, beside)
}
