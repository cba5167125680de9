//! The best design of a network, by the three steps of the T-method over catalogue sizes: condensing, the fan,
//! expanding.
//!
//! Condensing gives each section the exact fronts of what budgets of pressure, dPa, buy at the least cost, cents, from
//! the leaves towards the fan, and then each side its front. One fan, or a fan on each side, is chosen over the fronts
//! of the two sides. Expanding takes the sizes from the fan outwards, within what each side has of the pressures
//! (docs/METHOD.md).
#![tactic(auto)]

ghost use Rattle.std.specs.Prelude.{◌≡◌, ◌<◌, ◌≤◌, IfOk, IfSome, IfNone};
ghost use Rattle.duct_units.specs.declared.side.Side.TheVariants.{Supply, Return};
ghost use Rattle.duct_definitions.specs.Order.{IsBest, NoneMeets};
ghost use Rattle.contract_join.specs.SectionFronts.{AreFrontsOf};
ghost use Rattle.contract_join.specs.SideFront.{IsSideFront};
ghost use Rattle.expand_sizes.specs.BestChoice.{IsBestChoice, NoneHasCost};

use contract_join::SectionFronts;
use duct_definitions::Design;
use duct_ports::Gate;
use duct_units::{NoMemory, Side};
use expand_sizes::expand;
use expand_sizes::laws::{choice_of_side_fronts_is_best, nothing_priced_is_no_design};
use fan_choice::{Choice, choose};
use net_model::Network;
use pareto_front::Front;
use std::alloc::Global;
use std::thread::Threads;
use tree_contract::{Fronted, contract_all};

/// The best design of the network; None where no design meets the rules. 1 to 32 workers condense at once, each of whom
/// enters the gate before it condenses a section; the answer is the same whichever of them condenses what.
pub fn best_design<R: Threads + Sync, G: Gate>(
    rt: &R,
    alloc: Global,
    net: &Network,
    workers: u32,
    gate: &G,
) -> Result<Option<Design>, NoMemory>
    requires { (0 < workers) × (workers ≤ 32) }
    ensures some { IfOk result (λ best. IfSome best (IsBest net.now)) }
    ensures none { IfOk result (λ best. IfNone best (NoneMeets net.now)) }
{
    let fronted = contract_all(rt, alloc, net, workers, gate)?;
    best_of_fronted(alloc, net, &fronted)
}

/// The best design of the network that was condensed; None where no design meets the rules.
pub fn best_of_fronted(
    alloc: Global,
    net: &Network,
    fronted: &Fronted,
) -> Result<Option<Design>, NoMemory>
    requires { fronted.now.net ≡ net.now }
    ensures some { IfOk result (λ best. IfSome best (IsBest net.now)) }
    ensures none { IfOk result (λ best. IfNone best (NoneMeets net.now)) }
{
    let supply = fronted.side(Side::Supply);
    let back = fronted.side(Side::Return);
    best_of(alloc, net, fronted.all(), supply, back)
}

/// The best design of the network, from the fronts of all its sections and of its two sides; None where no design meets
/// the rules.
pub fn best_of(
    alloc: Global,
    net: &Network,
    fronts: &[SectionFronts],
    supply: &Front,
    back: &Front,
) -> Result<Option<Design>, NoMemory>
    requires fronts { AreFrontsOf net.now fronts.now }
    requires supply { IsSideFront net.now Supply supply.now }
    requires back { IsSideFront net.now Return back.now }
    ensures some { IfOk result (λ best. IfSome best (IsBest net.now)) }
    ensures none { IfOk result (λ best. IfNone best (NoneMeets net.now)) }
{
    match best_choice(net, supply, back) {
        Some(choice) => Ok(Some(expand(alloc, net, fronts, &choice)?)),
        None => Ok(None),
    }
}

/// The fans with what each side has of their pressures, chosen over the fronts of the two sides.
pub fn best_choice(net: &Network, supply: &Front, back: &Front) -> Option<Choice>
    requires supply { IsSideFront net.now Supply supply.now }
    requires back { IsSideFront net.now Return back.now }
    ensures some { IfSome result (IsBestChoice net.now) }
    ensures none { IfNone result (NoneMeets net.now) }
    ensures cost { IfNone result (NoneHasCost net.now) }
{
    match choose(net, supply, back) {
        Some(choice) => {
            choice_of_side_fronts_is_best(net, supply, back, &choice);
            Some(choice)
        }
        None => {
            nothing_priced_is_no_design(net, supply, back);
            None
        }
    }
}
