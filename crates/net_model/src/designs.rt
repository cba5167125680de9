//! What a design loses and costs, and whether it meets the rules.
//!
//! Losses and pressures are in dPa, prices and costs in cents (docs/RULES.md, "Which designs meet the rules"
//! and "Cost and order"). No call takes memory.
ghost use Rattle.std.specs.Prelude.{◌≡◌, ◌+◌, ◌*◌, ◌<◌, ◌≤◌, ◌↔◌, ℕ, IsTrue, IsSome};
ghost use Rattle.duct_definitions.specs.Tree.{section_count, neighbour, side as side_of, is_leaf};
ghost use Rattle.duct_units.specs.Side.{same_side};
ghost use Rattle.duct_definitions.specs.Network.{IsBounded, columns};
ghost use Rattle.duct_definitions.specs.Designs.{Fits, Covers, Meets, size_beside, pair_of, loss_of, price_of, path_loss, worst, return_fan_cost, fans_cost, cost};

use crate::network::Network;
use duct_definitions::{Design, MAX_FAN_COST, MAX_LOSS, MAX_PRICE, MAX_SECTIONS, Pair};
use duct_units::Side;

/// Whether every section's pair is there and the fans cover the worst supply and the worst return loss.
pub fn meets(net: &Network, d: &Design) -> bool
    requires { Fits net.now d.now }
    ensures { IsTrue result ↔ Meets net.now d.now }
{
    has_pairs(net, d) && covers(net, d)
}

/// Whether the fan's pressure covers both sides; or with a return fan the supply side, and the return fan's the return
/// side.
fn covers(net: &Network, d: &Design) -> bool
    requires fits { Fits net.now d.now }
    requires pairs { (s : ℕ) → s < section_count net.now.tree → IsSome (pair_of net.now d.now s) }
    ensures { IsTrue result ↔ Covers net.now d.now d.now.back }
{
    let supply = worst(net, d, Side::Supply);
    let back = worst(net, d, Side::Return);
    let pressure = net.fan(d.fan).pressure;
    match d.back {
        None => supply + back <= pressure,
        Some(i) => supply <= pressure && back <= net.return_fan(i).pressure,
    }
}

/// What the sections from a leaf to the fan lose together, dPa.
pub fn path_loss(net: &Network, d: &Design, leaf: u32) -> u64
    requires fits { Fits net.now d.now }
    requires pairs { (s : ℕ) → s < section_count net.now.tree → IsSome (pair_of net.now d.now s) }
    requires leaf { IsTrue (is_leaf net.now.tree leaf) }
    ensures value { result ≡ path_loss net.now d.now leaf }
    ensures bound { result ≤ MAX_SECTIONS * MAX_LOSS }
{
    let tree = net.tree();
    let mut loss = 0;
    let mut at = Some(leaf);
    while let Some(s) = at {
        loss += loss_at(net, d, s);
        at = tree.neighbour(s);
    }
    loss
}

/// The greatest path loss of the side's leaves, dPa; 0 for a side without sections.
pub fn worst(net: &Network, d: &Design, side: Side) -> u64
    requires fits { Fits net.now d.now }
    requires pairs { (s : ℕ) → s < section_count net.now.tree → IsSome (pair_of net.now d.now s) }
    ensures value { result ≡ worst net.now d.now side }
    ensures bound { result ≤ MAX_SECTIONS * MAX_LOSS }
{
    let mut most: u64 = 0;
    for leaf in net.tree().leaves() {
        if is_on(net, *leaf, side) {
            most = most.max(path_loss(net, d, *leaf));
        }
    }
    most
}

/// The prices of all sections together with the fans' costs, cents.
pub fn cost(net: &Network, d: &Design) -> u64
    requires fits { Fits net.now d.now }
    requires pairs { (s : ℕ) → s < section_count net.now.tree → IsSome (pair_of net.now d.now s) }
    ensures value { result ≡ cost net.now d.now }
    ensures bound { result ≤ MAX_SECTIONS * MAX_PRICE + 2 * MAX_FAN_COST }
{
    let tree = net.tree();
    let mut cost = fans_cost(net, d);
    for s in 0..tree.len() {
        cost += price_at(net, d, s);
    }
    cost
}

/// What the fan costs, with the return fan where there is one, cents.
fn fans_cost(net: &Network, d: &Design) -> u64
    requires { Fits net.now d.now }
    ensures value { result ≡ fans_cost net.now d.now.fan d.now.back }
    ensures bound { result ≤ 2 * MAX_FAN_COST }
{
    net.fan(d.fan).cost + return_fan_cost(net, d)
}

/// What the return fan costs, cents; 0 where the fan serves both sides.
fn return_fan_cost(net: &Network, d: &Design) -> u64
    requires { Fits net.now d.now }
    ensures value { result ≡ return_fan_cost net.now d.now.back }
    ensures bound { result ≤ MAX_FAN_COST }
{
    match d.back {
        None => 0,
        Some(i) => net.return_fan(i).cost,
    }
}

/// What section `s` loses and costs in the design; None where its size can't be joined to its neighbour's.
fn pair_of(net: &Network, d: &Design, s: u32) -> Option<Pair>
    requires fits { Fits net.now d.now }
    requires section { s < section_count net.now.tree }
    ensures { result ≡ pair_of net.now d.now s }
{
    net.pair(s, d.sizes.as_slice()[s as usize], size_beside(net, d, s))
}

fn is_on(net: &Network, s: u32, side: Side) -> bool
    requires { s < section_count net.now.tree }
    ensures { result ≡ same_side (side_of net.now.tree s) side }
{
    net.tree().side(s) == side
}

fn has_pairs(net: &Network, d: &Design) -> bool
    requires { Fits net.now d.now }
    ensures { IsTrue result
        ↔ ((s : ℕ) → s < section_count net.now.tree → IsSome (pair_of net.now d.now s)) }
{
    for s in 0..net.tree().len() {
        if pair_of(net, d, s).is_none() {
            return false;
        }
    }
    true
}

/// What section `s` loses in the design, dPa; 0 where its size can't be joined to its neighbour's.
pub fn loss_at(net: &Network, d: &Design, s: u32) -> u64
    requires fits { Fits net.now d.now }
    requires section { s < section_count net.now.tree }
    ensures { result ≡ loss_of (pair_of net.now d.now s) }
{
    match pair_of(net, d, s) {
        Some(pair) => pair.loss,
        None => 0,
    }
}

/// What section `s` costs in the design, cents; 0 where its size can't be joined to its neighbour's.
pub fn price_at(net: &Network, d: &Design, s: u32) -> u64
    requires fits { Fits net.now d.now }
    requires section { s < section_count net.now.tree }
    ensures { result ≡ price_of (pair_of net.now d.now s) }
{
    match pair_of(net, d, s) {
        Some(pair) => pair.price,
        None => 0,
    }
}

/// The size of the section's neighbour; 0 at the fan.
fn size_beside(net: &Network, d: &Design, s: u32) -> u32
    requires fits { Fits net.now d.now }
    requires section { s < section_count net.now.tree }
    ensures value { result ≡ size_beside d.now (neighbour net.now.tree s) }
    ensures in_range { result < columns net.now s }
{
    match net.tree().neighbour(s) {
        None => 0,
        Some(n) => d.sizes.as_slice()[n as usize],
    }
}
