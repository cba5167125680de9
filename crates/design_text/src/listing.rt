//! The fields of a printed design.
ghost use Rattle.std.specs.Prelude.{◌≡◌, ◌<◌, map, IfOk};
ghost use Rattle.duct_definitions.specs.Tree.{section_count, sections};
ghost use Rattle.duct_definitions.specs.Designs.{Fits, Meets};
ghost use Rattle.duct_definitions.specs.Dampers.{damper as damper_of};
ghost use Rattle.duct_definitions.specs.DesignText.{listed, listed_fan, listed_back, listed_section};
ghost use Rattle.damper_balance.specs.Balance.{AreDampers};
ghost use Rattle.damper_balance.specs.SectionNumbers.{ListsEach};

use damper_balance::Dampers;
use duct_definitions::{Design, Listed, ListedFan, ListedSection, NetFan};
use duct_units::{List, NoMemory};
use net_model::{Network, cost, loss_at, price_at};
use std::alloc::Global;

/// The fields of a design that meets the rules, with its dampers and its cost.
pub(crate) fn listed(
    alloc: Global,
    net: &Network,
    d: &Design,
    dampers: &Dampers,
) -> Result<Listed, NoMemory>
    requires meets { Meets net.now d.now }
    requires dampers { AreDampers net.now d.now dampers.now }
    ensures { IfOk result (λ fields. fields ≡ listed net.now d.now) }
{
    let fan = net.fan(d.fan);
    Ok(Listed {
        project: net.name(),
        fan: fan.name,
        pressure: fan.pressure,
        fan_cost: fan.cost,
        back: listed_back(net, d),
        supply_worst: dampers.supply_worst,
        supply_head: dampers.supply_head,
        return_worst: dampers.return_worst,
        return_head: dampers.return_head,
        sections: listed_sections(alloc, net, d, dampers.damper.as_slice())?,
        total: cost(net, d),
    })
}

/// The fields of the return fan's line, where there is one.
fn listed_back(net: &Network, d: &Design) -> Option<ListedFan>
    requires { Fits net.now d.now }
    ensures { result ≡ listed_back net.now d.now.back }
{
    match d.back {
        None => None,
        Some(i) => Some(listed_fan(&net.return_fan(i))),
    }
}

/// The fields of the line of a fan.
fn listed_fan(fan: &NetFan) -> ListedFan
    ensures { result ≡ listed_fan fan.now }
{
    ListedFan {
        name: fan.name,
        pressure: fan.pressure,
        cost: fan.cost,
    }
}

/// The fields of each section's line; `dampers` has one entry for each section.
fn listed_sections(
    alloc: Global,
    net: &Network,
    d: &Design,
    dampers: &[u64],
) -> Result<List<ListedSection>, NoMemory>
    requires meets { Meets net.now d.now }
    requires dampers { ListsEach net.now.tree (damper_of net.now d.now) dampers.now }
    ensures { IfOk result (λ lines. lines ≡ map (listed_section net.now d.now) (sections net.now.tree)) }
{
    let mut lines = Vec::with_capacity(alloc, dampers.len())?;
    for s in 0..net.tree().len() {
        lines.push(listed_section(net, d, s, dampers[s as usize]))?;
    }
    Ok(List::from_vec(lines))
}

fn listed_section(net: &Network, d: &Design, s: u32, damper: u64) -> ListedSection
    requires meets { Meets net.now d.now }
    requires section { s < section_count net.now.tree }
    requires damper { damper ≡ damper_of net.now d.now s }
    ensures { result ≡ listed_section net.now d.now s }
{
    ListedSection {
        name: net.section_name(s),
        size: net.size_name(s, d.sizes.as_slice()[s as usize]),
        loss: loss_at(net, d, s),
        price: price_at(net, d, s),
        damper,
    }
}
