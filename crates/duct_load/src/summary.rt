//! The summary of a network and of the design that was found for it.
ghost use Rattle.std.specs.Prelude.{◌≡◌, ◌++◌, ◌*◌, ◌<◌, ◌≤◌, IfOk, OnOk};
ghost use Rattle.std.specs.Option.{ForSome, option_copied};
ghost use Rattle.duct_definitions.specs.Tree.{section_count};
ghost use Rattle.duct_definitions.specs.Network.{IsNetwork, size_count};
ghost use Rattle.duct_definitions.specs.Designs.{Meets};
ghost use Rattle.duct_definitions.specs.declared.limits.TheConstants.{MAX_SIZES};
ghost use Rattle.duct_load.specs.Summary.{pairs_in_size, pairs_of_section, pair_count, found_lines, summary};

use duct_definitions::Design;
use duct_units::{List, NoMemory, Side};
use net_model::{Network, cost, worst};
use std::alloc::Global;
use text_lines::{Text, number};

/// The summary of the network with a design that meets the rules; or with None, where none was found.
pub fn print_summary(
    alloc: Global,
    net: &Network,
    design: Option<&Design>,
) -> Result<List<u8>, NoMemory>
    requires { ForSome design (λ d. Meets net.now d.now) }
    ensures { IfOk result (λ text. text ≡ summary net.now (option_copied design.entry)) }
{
    let mut text = Text::new(alloc);
    text.numbers(alloc, b"made", &[u64::from(net.tree().len())])?;
    text.numbers(alloc, b"leaves", &[net.tree().leaves().len() as u64])?;
    text.numbers(alloc, b"pairs", &[pair_count(net)])?;
    match design {
        Some(d) => add_found(alloc, &mut text, net, d)?,
        None => text.line(b"none", &[])?,
    }
    text.line(b"end", &[])?;
    Ok(text.into_list())
}

// The lines of the design's fan, of the worst loss of each side and of the cost.
fn add_found(alloc: Global, text: &mut Text, net: &Network, d: &Design) -> Result<(), NoMemory>
    requires { Meets net.now d.now }
    ensures { OnOk result (text.new ≡ text.old ++ found_lines net.now (Some d.now)) }
{
    let fan = net.fan(d.fan);
    let pressure = number(alloc, fan.pressure)?;
    text.line(b"fan", &[fan.name.bytes(), pressure.as_bytes()])?;
    text.numbers(
        alloc,
        b"worst",
        &[worst(net, d, Side::Supply), worst(net, d, Side::Return)],
    )?;
    text.numbers(alloc, b"cost", &[cost(net, d)])
}

// How many pairs of sizes are there.
#[tactic(auto, using(crate::proofs::RangeLaws::sum_more))]
fn pair_count(net: &Network) -> u64
    ensures { result ≡ pair_count net.now }
{
    let mut count = 0;
    for s in 0..net.tree().len() {
        count += pairs_of_section(net, s);
    }
    count
}

// How many pairs of section `s` are there.
#[tactic(auto, using(crate::proofs::RangeLaws::sum_more))]
fn pairs_of_section(net: &Network, s: u32) -> u64
    requires network { IsNetwork net.now }
    requires section { s < section_count net.now.tree }
    ensures value { result ≡ pairs_of_section net.now s }
    ensures few { result ≤ MAX_SIZES * MAX_SIZES }
{
    let mut count = 0;
    for k in 0..net.size_count(s) {
        count += pairs_in_size(net, s, k);
    }
    count
}

// How many pairs of section `s` in size `k` are there.
#[tactic(auto, using(crate::proofs::RangeLaws::count_more_yes, crate::proofs::RangeLaws::count_more_no, crate::proofs::RangeLaws::count_few))]
fn pairs_in_size(net: &Network, s: u32, k: u32) -> u64
    requires network { IsNetwork net.now }
    requires section { s < section_count net.now.tree }
    requires size { k < size_count net.now s }
    ensures value { result ≡ pairs_in_size net.now s k }
    ensures few { result ≤ MAX_SIZES }
{
    let mut count = 0;
    for g in 0..net.columns(s) {
        if net.pair(s, k, g).is_some() {
            count += 1;
        }
    }
    count
}

#[cfg(test)]
mod tests {
    use super::*;
    use crate::make_network;
    use std::test::Fail;

    // The pairs of one section are 8, those of a second one 61, and those of a third at the fan 7.
    #[test]
    fn a_summary_without_a_design_says_none(rt: HostRuntime) -> Result<(), Fail> {
        let net = make_network(rt.alloc(), 3)?;
        let text = print_summary(rt.alloc(), &net, None)?;
        assert_eq!(rt;
            text.as_slice(),
            b"made 3\nleaves 2\npairs 76\nnone\nend\n".as_slice()
        );
        Ok(())
    }
}
