//! The made network.
ghost use Rattle.std.specs.Prelude.{◌≡◌, ◌<◌, ◌≤◌, codes, map, IfOk, IsTrue};
ghost use Rattle.std.specs.List.{range_with_len};
ghost use Rattle.duct_units.specs.Name.{is_name_byte};
ghost use Rattle.duct_definitions.specs.declared.limits.TheConstants.{MAX_SECTIONS};
ghost use Rattle.duct_load.specs.Made.{fan_of, names_with, numbered, pairs_of, tree_of, made};

use crate::numbering::{neighbour_of, side_of};
use crate::pairs::{SIZES, pairs_of};
use air_tree::AirTree;
use duct_definitions::{NetFan, Pair};
use duct_units::{List, Name, NoMemory, ReadError};
use net_model::Network;
use std::alloc::Global;
use text_lines::number;

// How many fans a made network offers.
const FANS: u32 = 8;

/// The made network of `n` sections: at least one, and no more than a network may have.
pub fn make_network(alloc: Global, n: u32) -> Result<Network, NoMemory>
    requires some { 1 ≤ n }
    requires few { n ≤ MAX_SECTIONS }
    ensures { IfOk result (λ net. net ≡ made n) }
{
    Ok(Network::new(
        project_name(),
        tree_of(alloc, n)?,
        names_with(alloc, 's', n)?,
        all_sizes(alloc, n)?,
        all_pairs(alloc, n)?,
        fans(alloc)?,
    ))
}

fn project_name() -> Name
    ensures { result ≡ codes "made" }
{
    Name::new(b"made").unwrap()
}

// The tree of `n` sections.
#[tactic(auto, using(crate::proofs::RangeLaws::map_more))]
fn tree_of(alloc: Global, n: u32) -> Result<AirTree, NoMemory>
    requires some { 1 ≤ n }
    requires few { n ≤ MAX_SECTIONS }
    ensures { IfOk result (λ tree. tree ≡ tree_of n) }
{
    let mut neighbours = Vec::new(alloc);
    let mut sides = Vec::new(alloc);
    for i in 0..n {
        neighbours.push(neighbour_of(i))?;
        sides.push(side_of(i))?;
    }
    match AirTree::new(alloc, List::from_vec(neighbours), List::from_vec(sides)) {
        Ok(tree) => Ok(tree),
        Err(ReadError::NoMemory) => Err(NoMemory),
        Err(ReadError::Refused(_)) => unreachable!(),
    }
}

// The names of the sizes of each of `n` sections.
#[tactic(auto, using(crate::proofs::RangeLaws::map_more))]
fn all_sizes(alloc: Global, n: u32) -> Result<List<List<Name>>, NoMemory>
    ensures { IfOk result (λ sizes. sizes ≡ map (λ i. names_with 107 8) (range_with_len 0 n)) }
{
    let mut sizes = Vec::new(alloc);
    for _section in 0..n {
        sizes.push(names_with(alloc, 'k', SIZES)?)?;
    }
    Ok(List::from_vec(sizes))
}

// The pairs of each of `n` sections.
#[tactic(auto, using(crate::proofs::RangeLaws::map_more))]
fn all_pairs(alloc: Global, n: u32) -> Result<List<List<Option<Pair>>>, NoMemory>
    requires { n ≤ MAX_SECTIONS }
    ensures { IfOk result (λ pairs. pairs ≡ map pairs_of (range_with_len 0 n)) }
{
    let mut pairs = Vec::new(alloc);
    for i in 0..n {
        pairs.push(pairs_of(alloc, i)?)?;
    }
    Ok(List::from_vec(pairs))
}

// The fans on offer.
#[tactic(auto, using(crate::proofs::RangeLaws::map_more))]
fn fans(alloc: Global) -> Result<List<NetFan>, NoMemory>
    ensures { IfOk result (λ fans. fans ≡ map fan_of (range_with_len 0 8)) }
{
    let mut fans = Vec::new(alloc);
    for j in 0..FANS {
        fans.push(fan_of(alloc, j)?)?;
    }
    Ok(List::from_vec(fans))
}

// Fan `j`: each gives 250 dPa more than the one before, and costs 2000 cents more.
fn fan_of(alloc: Global, j: u32) -> Result<NetFan, NoMemory>
    requires { j < FANS }
    ensures { IfOk result (λ fan. fan ≡ fan_of j) }
{
    Ok(NetFan {
        name: numbered(alloc, 'f', j)?,
        pressure: 250 * u64::from(j + 1),
        cost: 2000 * u64::from(j + 1),
    })
}

// The names of the first things of a kind.
#[tactic(auto, using(crate::proofs::RangeLaws::map_more))]
fn names_with(alloc: Global, letter: char, count: u32) -> Result<List<Name>, NoMemory>
    requires letter { IsTrue (is_name_byte letter) }
    requires few { count ≤ MAX_SECTIONS }
    ensures { IfOk result (λ names. names ≡ names_with letter count) }
{
    let mut names = Vec::new(alloc);
    for i in 0..count {
        names.push(numbered(alloc, letter, i)?)?;
    }
    Ok(List::from_vec(names))
}

// The name of thing `i` of a kind: the letter of the kind, and the number, which counts from 1.
fn numbered(alloc: Global, letter: char, i: u32) -> Result<Name, NoMemory>
    requires letter { IsTrue (is_name_byte letter) }
    requires few { i < MAX_SECTIONS }
    ensures { IfOk result (λ name. name ≡ numbered letter i) }
{
    let mut text = String::new(alloc);
    text.push(letter)?;
    text.push_str(number(alloc, u64::from(i + 1))?.as_str())?;
    Ok(Name::new(text.as_bytes()).unwrap())
}
