//! The listed fans against the network's.
ghost use Rattle.std.specs.Prelude.{◌≡◌, ◌<◌, ◌&&◌, ◌==◌, length, IfSome};
ghost use Rattle.duct_definitions.specs.Network.{Network};
ghost use Rattle.duct_definitions.specs.DesignText.{first_fan};
ghost use Rattle.design_check.specs.Named.{fan_named};
ghost use Rattle.design_check.specs.Verdicts.{fan_agrees, back_agrees, fans_agree};

use duct_definitions::{Listed, ListedFan, NetFan};
use duct_units::Name;
use net_model::Network;

/// Whether the listed fans are the network's, with their pressures and costs.
pub(crate) fn fans_agree(net: &Network, listed: &Listed) -> bool
    ensures { result ≡ fans_agree net.now listed.now }
{
    fan_agrees(net, listed) && back_agrees(net, &listed.back)
}

/// Whether the listed fan is one of the network's, with its pressure and its cost.
fn fan_agrees(net: &Network, listed: &Listed) -> bool
    ensures { result ≡ fan_agrees net.now.fans (first_fan listed.now) }
{
    match fan_named(net, &listed.fan) {
        Some(i) => is_listed(&net.fan(i), listed.pressure, listed.fan_cost),
        None => false,
    }
}

fn is_listed(fan: &NetFan, pressure: u64, cost: u64) -> bool
    ensures { result ≡ (fan.now.pressure == pressure && fan.now.cost == cost) }
{
    fan.pressure == pressure && fan.cost == cost
}

/// The number of the fan of this name.
#[tactic(auto, using(crate::proofs::NumberSearch::not_here, crate::proofs::NumberSearch::first_here, crate::proofs::NumberSearch::none_at_all))]
fn fan_named(net: &Network, name: &Name) -> Option<u32>
    ensures value { result ≡ fan_named net.now.fans name.now }
    ensures within { IfSome result (λ i. i < length net.now.fans) }
{
    for i in 0..net.fan_count() {
        if net.fan(i).name == *name {
            return Some(i);
        }
    }
    None
}

/// Whether the listed return fan, where there is one, is one of the network's, with its pressure and its cost.
fn back_agrees(net: &Network, back: &Option<ListedFan>) -> bool
    ensures { result ≡ back_agrees net.now.return_fans back.now }
{
    match back {
        Some(fan) => return_fan_agrees(net, fan),
        None => true,
    }
}

fn return_fan_agrees(net: &Network, fan: &ListedFan) -> bool
    ensures { result ≡ fan_agrees net.now.return_fans fan.now }
{
    match return_fan_named(net, &fan.name) {
        Some(i) => is_listed(&net.return_fan(i), fan.pressure, fan.cost),
        None => false,
    }
}

/// The number of the return fan of this name.
#[tactic(auto, using(crate::proofs::NumberSearch::not_here, crate::proofs::NumberSearch::first_here, crate::proofs::NumberSearch::none_at_all))]
fn return_fan_named(net: &Network, name: &Name) -> Option<u32>
    ensures value { result ≡ fan_named net.now.return_fans name.now }
    ensures within { IfSome result (λ i. i < length net.now.return_fans) }
{
    for i in 0..net.return_fan_count() {
        if net.return_fan(i).name == *name {
            return Some(i);
        }
    }
    None
}
