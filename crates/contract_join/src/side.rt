//! The front of a whole side of the fan.
ghost use Rattle.std.specs.Prelude.{◌≡◌, ◌<◌, ◌≤◌, All, IfOk, None, length};
ghost use Rattle.duct_definitions.specs.declared.limits.TheConstants.{MAX_SECTIONS};
ghost use Rattle.duct_definitions.specs.Tree.{section_count, neighbour};
ghost use Rattle.contract_join.specs.SectionFronts.{AreFrontsOf};
ghost use Rattle.contract_join.specs.SideFront.{IsSideFront};
ghost use Rattle.contract_join.specs.Join.{AreSumOf, AddsSection, HasRoom};

use crate::close::count_of_points;
use crate::section_fronts::SectionFronts;
use duct_units::{NoMemory, Side};
use net_model::Network;
use net_model::laws::network_is_valid;
use pareto_front::{Front, FrontSum};
use std::alloc::Global;

/// What each budget buys at the least cost for a side of the fan, from the fronts of all sections. A side without
/// sections needs nothing and costs nothing.
pub fn side_of(
    alloc: Global,
    net: &Network,
    fronts: &[SectionFronts],
    side: Side,
) -> Result<Front, NoMemory>
    requires { AreFrontsOf net.now fronts.now }
    ensures { IfOk result (IsSideFront net.now side) }
{
    let sum = sum_of_roots(alloc, net, fronts, net.tree().roots(side))?;
    sum.total(alloc)
}

/// What these sections at the fan cost together, each with all beyond it.
fn sum_of_roots(
    alloc: Global,
    net: &Network,
    fronts: &[SectionFronts],
    sections: &[u32],
) -> Result<FrontSum, NoMemory>
    requires fronts { AreFrontsOf net.now fronts.now }
    requires few { length sections.now ≤ MAX_SECTIONS }
    requires in_range { All (λ s. s < section_count net.now.tree) sections.now }
    requires at_fan { All (λ s. neighbour net.now.tree s ≡ None) sections.now }
    ensures { IfOk result (AreSumOf net.now 0 sections.now) }
{
    network_is_valid(net);
    let mut sum = FrontSum::start(alloc, net.cap(), points_of(fronts, sections))?;
    for s in sections {
        add_root(alloc, &mut sum, net, *s, fronts)?;
    }
    Ok(sum)
}

/// How many points the fronts of these sections have together. A section at the fan has one front.
fn points_of(fronts: &[SectionFronts], sections: &[u32]) -> usize
    requires { All (λ s. s < length fronts.now) sections.now }
{
    let mut count: usize = 0;
    for s in sections {
        count = count.saturating_add(count_of_points(fronts[*s as usize].fronts()));
    }
    count
}

/// Adds section `s`, which stands at the fan, with all beyond it.
fn add_root(
    alloc: Global,
    sum: &mut FrontSum,
    net: &Network,
    s: u32,
    fronts: &[SectionFronts],
) -> Result<(), NoMemory>
    requires fronts { AreFrontsOf net.now fronts.now }
    requires in_range { s < section_count net.now.tree }
    requires at_fan { neighbour net.now.tree s ≡ None }
    requires room { HasRoom net.now sum.old }
    ensures { IfOk result (λ _. AddsSection net.now s 0 sum.old sum.new) }
{
    network_is_valid(net);
    sum.add(alloc, fronts[s as usize].front(0))
}
