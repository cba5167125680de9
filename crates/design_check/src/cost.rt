//! The listed cost against that of the listed prices and fans, which are the network's.
ghost use Rattle.std.specs.Prelude.{◌≡◌, ◌<◌, ◌≤◌, ◌*◌, ℕ, length, true};
ghost use Rattle.duct_definitions.specs.declared.limits.TheConstants.{MAX_FAN_COST};
ghost use Rattle.duct_definitions.specs.Tree.{section_count};
ghost use Rattle.duct_definitions.specs.Designs.{pair_of, price_of, return_fan_cost, fans_cost, cost};
ghost use Rattle.design_check.specs.Named.{named};
ghost use Rattle.design_check.specs.Verdicts.{fans_agree, loss_agrees};

use crate::names::line_at;
use duct_definitions::Listed;
use net_model::Network;
use net_model::laws::network_is_valid;

/// What the listed fans and sections cost together.
pub(crate) fn cost(net: &Network, listed: &Listed) -> u64
    requires lines { length listed.now.sections ≡ section_count net.now.tree }
    requires prices { (s : ℕ) → s < section_count net.now.tree → loss_agrees net.now listed.now s ≡ true }
    requires fans { fans_agree net.now listed.now ≡ true }
    ensures { result ≡ cost net.now (named net.now listed.now) }
{
    let tree = net.tree();
    let mut cost = fans_cost(net, listed);
    for s in 0..tree.len() {
        cost += price_at(net, listed, s);
    }
    cost
}

/// The listed price of the section, which is its pair's.
fn price_at(net: &Network, listed: &Listed, s: u32) -> u64
    requires section { s < section_count net.now.tree }
    requires lines { length listed.now.sections ≡ section_count net.now.tree }
    requires agrees { loss_agrees net.now listed.now s ≡ true }
    ensures { result ≡ price_of (pair_of net.now (named net.now listed.now) s) }
{
    line_at(listed, s).price
}

/// What the listed fans cost together.
fn fans_cost(net: &Network, listed: &Listed) -> u64
    requires fans { fans_agree net.now listed.now ≡ true }
    ensures value { result ≡ fans_cost net.now (named net.now listed.now).fan (named net.now listed.now).back }
    ensures bound { result ≤ 2 * MAX_FAN_COST }
{
    network_is_valid(net);
    listed.fan_cost + return_fan_cost(net, listed)
}

/// What the listed return fan costs; 0 where none is listed.
fn return_fan_cost(net: &Network, listed: &Listed) -> u64
    requires fans { fans_agree net.now listed.now ≡ true }
    ensures value { result ≡ return_fan_cost net.now (named net.now listed.now).back }
    ensures bound { result ≤ MAX_FAN_COST }
{
    network_is_valid(net);
    match &listed.back {
        None => 0,
        Some(fan) => fan.cost,
    }
}
