//! The heads and the dampers of a design, found in walks over the sections.
ghost use Rattle.std.specs.Prelude.{◌≡◌, length, IfOk};
ghost use Rattle.duct_units.specs.declared.side.Side.TheVariants.{Return};
ghost use Rattle.duct_definitions.specs.Tree.{section_count};
ghost use Rattle.duct_definitions.specs.Designs.{Meets, pair_of, loss_of, path_loss, worst};
ghost use Rattle.duct_definitions.specs.Dampers.{damper};
ghost use Rattle.damper_balance.specs.SectionNumbers.{ListsEach};
ghost use Rattle.damper_balance.specs.Balance.{AreHeads, ArePressures, AreDampers};

use crate::passes::{Heads, add_along_ways, greatest, throttle};
use duct_definitions::Design;
use duct_units::{List, NoMemory, Side};
use net_model::{Network, loss_at};
use std::alloc::Global;

/// How a design shares the fans' pressures. All numbers are in dPa.
#[derive(Debug, Drop)]
pub struct Dampers {
    /// The greatest path loss of the supply side.
    pub supply_worst: u64,
    /// What every supply path takes, dampers included.
    pub supply_head: u64,
    /// The greatest path loss of the return side; 0 without a return side.
    pub return_worst: u64,
    /// What every return path takes, dampers included.
    pub return_head: u64,
    /// Of each section in order what its damper takes.
    pub damper: List<u64>,
}

/// The heads and the dampers of a design that meets the rules.
///
/// Reserves once, at its start, and takes steps in proportion to the number of sections.
pub fn balance(alloc: Global, net: &Network, d: &Design) -> Result<Dampers, NoMemory>
    requires { Meets net.now d.now }
    ensures { IfOk result (λ found. AreDampers net.now d.now found) }
{
    let mut numbers = vec![in alloc; 0; net.tree().len() as usize]?;
    let found = share(net, d, &mut numbers);
    Ok(Dampers {
        supply_worst: found.supply_worst,
        supply_head: found.heads.supply,
        return_worst: found.return_worst,
        return_head: found.heads.back,
        damper: List::from_vec(numbers),
    })
}

/// The worst loss and the head of each side, dPa.
#[derive(Clone, Copy)]
struct Pressures {
    /// The greatest path loss of the supply side.
    supply_worst: u64,
    /// The greatest path loss of the return side; 0 without a return side.
    return_worst: u64,
    /// What every path of each side takes.
    heads: Heads,
}

/// Writes what the damper of each section takes, and answers the worst losses and the heads.
fn share(net: &Network, d: &Design, numbers: &mut [u64]) -> Pressures
    requires design { Meets net.now d.now }
    requires count { length numbers.old ≡ section_count net.now.tree }
    ensures pressures { ArePressures net.now d.now result }
    ensures dampers { ListsEach net.now.tree (damper net.now d.now) numbers.new }
{
    path_losses(net, d, numbers);
    let found = find_pressures(net, d, numbers);
    throttle(net.tree(), found.heads, numbers);
    found
}

/// Writes of each section what the sections from it to the fan lose.
fn path_losses(net: &Network, d: &Design, numbers: &mut [u64])
    requires design { Meets net.now d.now }
    requires count { length numbers.old ≡ section_count net.now.tree }
    ensures { ListsEach net.now.tree (path_loss net.now d.now) numbers.new }
{
    losses(net, d, numbers);
    add_along_ways(net.tree(), numbers);
}

/// Writes what each section loses.
fn losses(net: &Network, d: &Design, numbers: &mut [u64])
    requires design { Meets net.now d.now }
    requires count { length numbers.old ≡ section_count net.now.tree }
    ensures { ListsEach net.now.tree (λ s. loss_of (pair_of net.now d.now s)) numbers.new }
{
    for s in 0..net.tree().len() {
        numbers[s as usize] = loss_at(net, d, s);
    }
}

/// The worst losses and the heads, by the path loss of each section.
fn find_pressures(net: &Network, d: &Design, losses: &[u64]) -> Pressures
    requires design { Meets net.now d.now }
    requires losses { ListsEach net.now.tree (path_loss net.now d.now) losses.now }
    ensures { ArePressures net.now d.now result }
{
    let tree = net.tree();
    let supply_worst = greatest(tree, losses, Side::Supply);
    let return_worst = greatest(tree, losses, Side::Return);
    Pressures {
        supply_worst,
        return_worst,
        heads: find_heads(net, d, return_worst),
    }
}

/// What each path of each side has to take. With one fan the return side has its worst loss, and the supply side the
/// rest of the pressure; with a return fan each side has the pressure of its own fan.
fn find_heads(net: &Network, d: &Design, return_worst: u64) -> Heads
    requires design { Meets net.now d.now }
    requires back { return_worst ≡ worst net.now d.now Return }
    ensures { AreHeads net.now d.now result }
{
    let pressure = net.fan(d.fan).pressure;
    match d.back {
        None => Heads {
            supply: pressure - return_worst,
            back: return_worst,
        },
        Some(i) => Heads {
            supply: pressure,
            back: net.return_fan(i).pressure,
        },
    }
}
