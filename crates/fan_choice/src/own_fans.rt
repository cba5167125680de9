//! A fan on each side: the return side's own fan, and the cheapest way to let a fan stand beside it.
ghost use Rattle.std.specs.Prelude.{◌≡◌, ◌+◌, ◌<◌, ◌≤◌, All, IfSome};
ghost use Rattle.duct_definitions.specs.declared.limits.TheConstants.{MAX_FAN_COST};
ghost use Rattle.pareto_front.specs.Front.{IsFront};
ghost use Rattle.fan_choice.specs.OwnFans.{last_within, return_offer, best_return, best_beside};
ghost use Rattle.pareto_front.specs.declared.point.TheConstants.{COST_LIMIT};

use crate::cheaper::{Offer, cheaper};
use crate::choice::Choice;
use crate::sharing::within;
use duct_definitions::NetFan;
use net_model::Network;
use pareto_front::Point;

/// A return fan with the cheapest that its pressure buys on the return side.
#[derive(Clone, Copy)]
pub(crate) struct ReturnOffer {
    /// The number of the return fan, from 0.
    pub number: u32,
    /// The pressure that it gives, dPa.
    pub pressure: u64,
    /// What it costs together with the return side, cents.
    pub cost: u64,
}

impl Offer for ReturnOffer {
    ghost price = { λ offer. offer.cost };

    fn cost(&self) -> u64 {
        self.cost
    }
}

/// The return fan of the least cost together with what its pressure buys; of equal ones the first.
pub(crate) fn best_return(net: &Network, back: &[Point]) -> Option<ReturnOffer>
    requires front { IsFront back.now }
    requires costs { All (λ point. point.cost < COST_LIMIT) back.now }
    ensures value { result ≡ best_return net.now back.now }
    ensures bound { IfSome result (λ offer. offer.cost < MAX_FAN_COST + COST_LIMIT) }
{
    let mut best = None;
    for number in 0..net.return_fan_count() {
        let fan = net.return_fan(number);
        best = cheaper(best, return_offer(number, &fan, back));
    }
    best
}

/// The return fan with the cheapest that its pressure buys, if it buys anything.
fn return_offer(number: u32, fan: &NetFan, back: &[Point]) -> Option<ReturnOffer>
    requires fan { fan.now.cost ≤ MAX_FAN_COST }
    requires front { IsFront back.now }
    requires costs { All (λ point. point.cost < COST_LIMIT) back.now }
    ensures value { result ≡ return_offer number fan.now back.now }
    ensures bound { IfSome result (λ offer. offer.cost < MAX_FAN_COST + COST_LIMIT) }
{
    let point = last_within(back, fan.pressure)?;
    Some(ReturnOffer {
        number,
        pressure: fan.pressure,
        cost: fan.cost + point.cost,
    })
}

/// The fan for the supply side alone, with the cheapest that its pressure buys, beside the return side's own fan.
pub(crate) fn best_beside(
    number: u32,
    fan: &NetFan,
    supply: &[Point],
    own: Option<ReturnOffer>,
) -> Option<Choice>
    requires fan { fan.now.cost ≤ MAX_FAN_COST }
    requires front { IsFront supply.now }
    requires costs { All (λ point. point.cost < COST_LIMIT) supply.now }
    requires own { IfSome own (λ offer. offer.cost < MAX_FAN_COST + COST_LIMIT) }
    ensures { result ≡ best_beside number fan.now supply.now own }
{
    let own = own?;
    let point = last_within(supply, fan.pressure)?;
    Some(Choice {
        fan: number,
        back: Some(own.number),
        cost: fan.cost + point.cost + own.cost,
        supply_budget: point.need,
        return_budget: own.pressure,
    })
}

/// The last point within the budget, dPa.
fn last_within(points: &[Point], budget: u64) -> Option<Point>
    requires front { IsFront points.now }
    requires costs { All (λ point. point.cost < COST_LIMIT) points.now }
    ensures value { result ≡ last_within points.now budget }
    ensures bound { IfSome result (λ point. point.cost < COST_LIMIT) }
{
    within(points, budget).last().copied()
}
