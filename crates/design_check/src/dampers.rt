//! The listed heads and dampers against those of the listed losses, which are the pairs'.
//!
//! One list has a number for each section: its loss, then its path loss, then what its damper takes.
ghost use Rattle.std.specs.Prelude.{◌≡◌, ◌<◌, ℕ, length, true, IfSome};
ghost use Rattle.duct_units.specs.declared.side.Side.TheVariants.{Supply, Return};
ghost use Rattle.duct_definitions.specs.Tree.{section_count};
ghost use Rattle.duct_definitions.specs.Designs.{Meets, pair_of, loss_of, path_loss, worst};
ghost use Rattle.duct_definitions.specs.Dampers.{head, damper};
ghost use Rattle.damper_balance.specs.SectionNumbers.{ListsEach};
ghost use Rattle.design_check.specs.Named.{line_at, named};
ghost use Rattle.design_check.specs.Verdicts.{fans_agree, covers, heads_agree, first_failing, damper_agrees, loss_agrees};

use crate::names::line_at;
use damper_balance::{Heads, add_along_ways, greatest, throttle};
use duct_definitions::Listed;
use duct_units::Side;
use net_model::Network;

/// Writes of each section what the sections from it to the fan lose.
pub(crate) fn path_losses(net: &Network, listed: &Listed, numbers: &mut [u64])
    requires lines { length listed.now.sections ≡ section_count net.now.tree }
    requires losses { (s : ℕ) → s < section_count net.now.tree → loss_agrees net.now listed.now s ≡ true }
    requires count { length numbers.old ≡ section_count net.now.tree }
    ensures { ListsEach net.now.tree (path_loss net.now (named net.now listed.now)) numbers.new }
{
    losses(net, listed, numbers);
    add_along_ways(net.tree(), numbers);
}

/// Writes what each section loses.
fn losses(net: &Network, listed: &Listed, numbers: &mut [u64])
    requires lines { length listed.now.sections ≡ section_count net.now.tree }
    requires losses { (s : ℕ) → s < section_count net.now.tree → loss_agrees net.now listed.now s ≡ true }
    requires count { length numbers.old ≡ section_count net.now.tree }
    ensures { ListsEach net.now.tree (λ s. loss_of (pair_of net.now (named net.now listed.now) s)) numbers.new }
{
    for s in 0..net.tree().len() {
        numbers[s as usize] = loss_at(net, listed, s);
    }
}

/// The listed loss of the section, which is its pair's.
fn loss_at(net: &Network, listed: &Listed, s: u32) -> u64
    requires section { s < section_count net.now.tree }
    requires lines { length listed.now.sections ≡ section_count net.now.tree }
    requires agrees { loss_agrees net.now listed.now s ≡ true }
    ensures { result ≡ loss_of (pair_of net.now (named net.now listed.now) s) }
{
    line_at(listed, s).loss
}

/// Whether the listed fans cover both sides, and each side's worst loss and head are the listed ones.
pub(crate) fn heads_agree(net: &Network, listed: &Listed, losses: &[u64]) -> bool
    requires fans { fans_agree net.now listed.now ≡ true }
    requires losses { ListsEach net.now.tree (path_loss net.now (named net.now listed.now)) losses.now }
    ensures { result ≡ heads_agree net.now listed.now (named net.now listed.now) }
{
    let supply_worst = worst(net, listed, losses, Side::Supply);
    let return_worst = worst(net, listed, losses, Side::Return);
    covers(net, listed, supply_worst, return_worst)
        && listed.supply_worst == supply_worst
        && listed.supply_head == supply_head(net, listed, return_worst)
        && listed.return_worst == return_worst
        && listed.return_head == return_head(net, listed, return_worst)
}

/// The greatest path loss of the side.
fn worst(net: &Network, listed: &Listed, losses: &[u64], side: Side) -> u64
    requires losses { ListsEach net.now.tree (path_loss net.now (named net.now listed.now)) losses.now }
    ensures { result ≡ worst net.now (named net.now listed.now) side }
{
    greatest(net.tree(), losses, side)
}

/// Whether the listed pressures cover the worst losses.
fn covers(net: &Network, listed: &Listed, supply_worst: u64, return_worst: u64) -> bool
    requires fans { fans_agree net.now listed.now ≡ true }
    requires supply_worst { supply_worst ≡ worst net.now (named net.now listed.now) Supply }
    requires return_worst { return_worst ≡ worst net.now (named net.now listed.now) Return }
    ensures { result ≡ covers net.now (named net.now listed.now) (named net.now listed.now).back }
{
    match &listed.back {
        None => {
            return_worst <= listed.pressure && supply_worst <= listed.pressure - return_worst
        }
        Some(fan) => supply_worst <= listed.pressure && return_worst <= fan.pressure,
    }
}

/// What the listed fans leave the supply side as its head.
fn supply_head(net: &Network, listed: &Listed, return_worst: u64) -> u64
    requires fans { fans_agree net.now listed.now ≡ true }
    requires return_worst { return_worst ≡ worst net.now (named net.now listed.now) Return }
    requires covered { covers net.now (named net.now listed.now) (named net.now listed.now).back ≡ true }
    ensures { result ≡ head net.now (named net.now listed.now) Supply }
{
    match &listed.back {
        None => listed.pressure - return_worst,
        Some(_) => listed.pressure,
    }
}

/// What the listed fans leave the return side as its head.
fn return_head(net: &Network, listed: &Listed, return_worst: u64) -> u64
    requires fans { fans_agree net.now listed.now ≡ true }
    requires return_worst { return_worst ≡ worst net.now (named net.now listed.now) Return }
    ensures { result ≡ head net.now (named net.now listed.now) Return }
{
    match &listed.back {
        None => return_worst,
        Some(fan) => fan.pressure,
    }
}

/// Writes of each section what its damper takes in place of its path loss; the heads are the listed ones.
pub(crate) fn dampers(net: &Network, listed: &Listed, numbers: &mut [u64])
    requires meets { Meets net.now (named net.now listed.now) }
    requires supply { listed.now.supply_head ≡ head net.now (named net.now listed.now) Supply }
    requires back { listed.now.return_head ≡ head net.now (named net.now listed.now) Return }
    requires losses { ListsEach net.now.tree (path_loss net.now (named net.now listed.now)) numbers.old }
    ensures { ListsEach net.now.tree (damper net.now (named net.now listed.now)) numbers.new }
{
    let heads = Heads {
        supply: listed.supply_head,
        back: listed.return_head,
    };
    throttle(net.tree(), heads, numbers);
}

/// The first section whose listed damper isn't this one.
#[tactic(auto, using(crate::proofs::NumberSearch::not_here, crate::proofs::NumberSearch::first_here, crate::proofs::NumberSearch::none_at_all))]
pub(crate) fn first_other_damper(net: &Network, listed: &Listed, dampers: &[u64]) -> Option<u32>
    requires lines { length listed.now.sections ≡ section_count net.now.tree }
    requires dampers { ListsEach net.now.tree (damper net.now (named net.now listed.now)) dampers.now }
    ensures value { result ≡ first_failing net.now (damper_agrees net.now listed.now) }
    ensures within { IfSome result (λ s. s < section_count net.now.tree) }
{
    for s in 0..net.tree().len() {
        if line_at(listed, s).damper != dampers[s as usize] {
            return Some(s);
        }
    }
    None
}
