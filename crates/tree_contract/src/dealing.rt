//! The order in which the leaves are dealt: the longest way to the fan begins first.
ghost use Rattle.std.specs.Prelude.{◌≡◌, ◌<◌, IfOk, map, slice_index};
ghost use Rattle.std.specs.List.{range_with_len};
ghost use Rattle.std.specs.List.Sorted.{IsPermutation};
ghost use Rattle.duct_definitions.specs.Tree.{section_count, sections, all_leaves};
ghost use Rattle.tree_contract.specs.Depths.{depth, AreDeepestFirst};

use duct_units::NoMemory;
use net_model::Network;
use net_model::laws::network_is_valid;
use std::alloc::Global;
use std::cmp::Reverse;

/// The leaves, the deepest first; those that stand equally deep are in order.
pub(crate) fn deepest_first(alloc: Global, net: &Network) -> Result<Vec<u32>, NoMemory>
    ensures leaves { IfOk result (λ leaves. IsPermutation (all_leaves net.now.tree) leaves.items) }
    ensures deepest { IfOk result (λ leaves. AreDeepestFirst net.now.tree leaves.items) }
{
    let depths = depths_of(alloc, net)?;
    let listed = depths.as_slice();
    let mut leaves = Vec::from_slice(alloc, net.tree().leaves())?;
    leaves.sort_by_key(|leaf| Reverse(listed_depth(listed, *leaf)))?;
    Ok(leaves)
}

/// The number listed for section `s`, 0 where the list ends before it.
fn listed_depth(depths: &[u32], s: u32) -> u32
    ensures { result ≡ slice_index depths.now s }
{
    depths.get(s as usize).copied().unwrap_or(0)
}

/// How deep each section stands.
fn depths_of(alloc: Global, net: &Network) -> Result<Vec<u32>, NoMemory>
    ensures { IfOk result (λ depths. depths.items ≡ map (depth net.now.tree) (sections net.now.tree)) }
{
    let count = net.tree().len();
    let mut depths = Vec::with_capacity(alloc, count as usize)?;
    for s in 0..count {
        depths.push(depth_of(net, depths.as_slice(), s))?;
    }
    Ok(depths)
}

/// How deep section `s` stands, from the depths of the sections before it.
fn depth_of(net: &Network, before: &[u32], s: u32) -> u32
    requires section { s < section_count net.now.tree }
    requires before { before.now ≡ map (depth net.now.tree) (range_with_len 0 s) }
    ensures { result ≡ depth net.now.tree s }
{
    network_is_valid(net);
    match net.tree().neighbour(s) {
        Some(n) => before[n as usize] + 1,
        None => 1,
    }
}
