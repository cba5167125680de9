//! The way from the fan outwards, section by section.
ghost use Rattle.std.specs.Prelude.{◌≡◌, ◌<◌, ◌≤◌, IfOk, length, slice_index};
ghost use Rattle.duct_definitions.specs.Tree.{section_count, neighbour, at_neighbour, side};
ghost use Rattle.duct_definitions.specs.Designs.{cost};
ghost use Rattle.duct_definitions.specs.Order.{IsBest};
ghost use Rattle.contract_join.specs.SectionFronts.{AreFrontsOf};
ghost use Rattle.expand_sizes.specs.BestChoice.{IsBestChoice, budget_on};
ghost use Rattle.expand_sizes.specs.Descent.{left_towards};

use crate::sizes::{first_attaining, loss_with};
use contract_join::SectionFronts;
use duct_definitions::Design;
use duct_units::{List, NoMemory, Side};
use fan_choice::Choice;
use net_model::Network;
use std::alloc::Global;

/// The best design of the network: the chosen fans, and of each section the first size with the least price.
///
/// Reserves once, at its start, and visits each section once with its sizes.
pub fn expand(
    alloc: Global,
    net: &Network,
    fronts: &[SectionFronts],
    choice: &Choice,
) -> Result<Design, NoMemory>
    requires fronts { AreFrontsOf net.now fronts.now }
    requires choice { IsBestChoice net.now choice.now }
    ensures best { IfOk result (IsBest net.now) }
    ensures cost { IfOk result (λ design. cost net.now design ≡ choice.now.cost) }
{
    let count = net.tree().len();
    let mut sizes = Vec::with_capacity(alloc, count as usize)?;
    let mut rests = Vec::with_capacity(alloc, count as usize)?;
    for s in 0..count {
        let beside = towards_fan(net, choice, s, sizes.as_slice(), rests.as_slice());
        let size = first_attaining(net, fronts, s, beside.size, beside.left);
        sizes.push(size)?;
        rests.push(beside.left - loss_with(net, s, size, beside.size))?;
    }
    Ok(Design {
        fan: choice.fan,
        back: choice.back,
        sizes: List::from_vec(sizes),
    })
}

/// What a section is joined to.
#[derive(Clone, Copy)]
struct Beside {
    /// The size of its neighbour, 0 at the fan.
    size: u32,
    /// What the sections between it and the fan leave of the side's budget, dPa.
    left: u64,
}

/// What the section is joined to, where `sizes` and `rests` have of each section before it the size, and what is left
/// of the budget beyond it, dPa.
fn towards_fan(net: &Network, choice: &Choice, s: u32, sizes: &[u32], rests: &[u64]) -> Beside
    requires section { s < section_count net.now.tree }
    requires sizes { length sizes.now ≡ s }
    requires rests { length rests.now ≡ s }
    ensures size { result.size ≡ at_neighbour (slice_index sizes.now) (neighbour net.now.tree s) }
    ensures left { result.left
        ≡ left_towards (budget_on choice.now (side net.now.tree s)) rests.now (neighbour net.now.tree s) }
{
    let tree = net.tree();
    match tree.neighbour(s) {
        None => Beside {
            size: 0,
            left: budget_on(choice, tree.side(s)),
        },
        Some(n) => Beside {
            size: sizes[n as usize],
            left: rests[n as usize],
        },
    }
}

/// The side's budget at the fan, dPa.
fn budget_on(choice: &Choice, side: Side) -> u64
    ensures { result ≡ budget_on choice.now side }
{
    match side {
        Side::Supply => choice.supply_budget,
        Side::Return => choice.return_budget,
    }
}
