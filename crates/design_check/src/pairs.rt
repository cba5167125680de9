//! The listed sizes, losses and prices against the network's pairs.
ghost use Rattle.std.specs.Prelude.{◌≡◌, ◌<◌, ◌&&◌, ◌==◌, length, IfSome};
ghost use Rattle.duct_definitions.specs.Tree.{section_count, neighbour};
ghost use Rattle.duct_definitions.specs.Network.{columns};
ghost use Rattle.duct_definitions.specs.Designs.{pair_of, size_beside};
ghost use Rattle.design_check.specs.Named.{named};
ghost use Rattle.design_check.specs.Verdicts.{first_failing, pair_agrees, loss_agrees};

use crate::names::{line_at, size_named, size_of};
use duct_definitions::{Listed, Pair};
use net_model::Network;

/// The first section that hasn't its listed size, or whose pair isn't there.
#[tactic(auto, using(crate::proofs::NumberSearch::not_here, crate::proofs::NumberSearch::first_here, crate::proofs::NumberSearch::none_at_all))]
pub(crate) fn first_other_pair(net: &Network, listed: &Listed) -> Option<u32>
    requires { length listed.now.sections ≡ section_count net.now.tree }
    ensures value { result ≡ first_failing net.now (pair_agrees net.now listed.now) }
    ensures within { IfSome result (λ s. s < section_count net.now.tree) }
{
    for s in 0..net.tree().len() {
        if !pair_agrees(net, listed, s) {
            return Some(s);
        }
    }
    None
}

fn pair_agrees(net: &Network, listed: &Listed, s: u32) -> bool
    requires section { s < section_count net.now.tree }
    requires lines { length listed.now.sections ≡ section_count net.now.tree }
    ensures { result ≡ pair_agrees net.now listed.now s }
{
    size_named(net, s, &line_at(listed, s).size).is_some() && pair_of(net, listed, s).is_some()
}

/// The pair of the section's and its neighbour's listed sizes.
#[tactic(auto, using(crate::proofs::NamedLaws::pair_is))]
fn pair_of(net: &Network, listed: &Listed, s: u32) -> Option<Pair>
    requires section { s < section_count net.now.tree }
    requires lines { length listed.now.sections ≡ section_count net.now.tree }
    ensures { result ≡ pair_of net.now (named net.now listed.now) s }
{
    net.pair(s, size_of(net, listed, s), size_beside(net, listed, s))
}

/// The listed size of the section's neighbour; 0 at the fan.
#[tactic(auto, using(crate::proofs::NamedLaws::beside_is))]
fn size_beside(net: &Network, listed: &Listed, s: u32) -> u32
    requires section { s < section_count net.now.tree }
    requires lines { length listed.now.sections ≡ section_count net.now.tree }
    ensures value { result ≡ size_beside (named net.now listed.now) (neighbour net.now.tree s) }
    ensures in_range { result < columns net.now s }
{
    match net.tree().neighbour(s) {
        None => 0,
        Some(n) => size_of(net, listed, n),
    }
}

/// The first section whose listed loss or price isn't its pair's.
#[tactic(auto, using(crate::proofs::NumberSearch::not_here, crate::proofs::NumberSearch::first_here, crate::proofs::NumberSearch::none_at_all))]
pub(crate) fn first_other_loss(net: &Network, listed: &Listed) -> Option<u32>
    requires { length listed.now.sections ≡ section_count net.now.tree }
    ensures value { result ≡ first_failing net.now (loss_agrees net.now listed.now) }
    ensures within { IfSome result (λ s. s < section_count net.now.tree) }
{
    for s in 0..net.tree().len() {
        if !loss_agrees(net, listed, s) {
            return Some(s);
        }
    }
    None
}

fn loss_agrees(net: &Network, listed: &Listed, s: u32) -> bool
    requires section { s < section_count net.now.tree }
    requires lines { length listed.now.sections ≡ section_count net.now.tree }
    ensures { result ≡ loss_agrees net.now listed.now s }
{
    let line = line_at(listed, s);
    match pair_of(net, listed, s) {
        Some(pair) => line.loss == pair.loss && line.price == pair.price,
        None => line.loss == 0 && line.price == 0,
    }
}
