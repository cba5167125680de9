//! The lists that a tree keeps, so that it gives them without a search: children, leaves and roots.
//!
//! Each takes one walk over the sections to count and one to fill, and memory for just what it holds.
ghost use Rattle.std.specs.Prelude.{◌≡◌, ◌<◌, ◌≤◌, ◌&&◌, ◌==◌, [], length, map, slice_index_or, IfOk};
ghost use Rattle.duct_definitions.specs.Tree.{Tree, side as side_of, is_root, all_leaves, roots};
ghost use Rattle.duct_units.specs.Side.{same_side};
ghost use Rattle.air_tree.specs.TreeLists.{StandEarlier, lists_of, counts_of};

use crate::rules::is_same;
use duct_definitions::MAX_SECTIONS;
use duct_units::{List, NoMemory, Side};
use std::alloc::Global;

/// Of each section its children, in rising number.
pub fn child_lists(alloc: Global, neighbours: &[Option<u32>]) -> Result<List<List<u32>>, NoMemory>
    requires few { length neighbours.now ≤ MAX_SECTIONS }
    requires earlier { StandEarlier neighbours.now }
    ensures { IfOk result (λ lists. lists ≡ lists_of neighbours.now) }
{
    let counts = child_counts(alloc, neighbours)?;
    let mut lists = empty_lists(alloc, counts.as_slice())?;
    for s in 0..neighbours.len() {
        if let Some(n) = neighbours[s] {
            lists[n as usize].push(s as u32)?;
        }
    }
    as_lists(alloc, lists)
}

/// Of each section how many children it has.
fn child_counts(alloc: Global, neighbours: &[Option<u32>]) -> Result<Vec<usize>, NoMemory>
    requires few { length neighbours.now ≤ MAX_SECTIONS }
    requires earlier { StandEarlier neighbours.now }
    ensures { IfOk result (λ counts. counts.items ≡ counts_of neighbours.now) }
{
    let mut counts = vec![in alloc; 0; neighbours.len()]?;
    for s in 0..neighbours.len() {
        if let Some(n) = neighbours[s] {
            counts[n as usize] += 1;
        }
    }
    Ok(counts)
}

/// An empty list for each of the counts, with room for as many numbers.
fn empty_lists(alloc: Global, counts: &[usize]) -> Result<Vec<Vec<u32>>, NoMemory>
    ensures { IfOk result (λ lists. map (λ list. list.items) lists.items ≡ map (λ _. []) counts.now) }
{
    let mut lists = Vec::with_capacity(alloc, counts.len())?;
    for count in counts {
        lists.push(Vec::with_capacity(alloc, *count)?)?;
    }
    Ok(lists)
}

/// The same lists, as contracts see them.
fn as_lists(alloc: Global, lists: Vec<Vec<u32>>) -> Result<List<List<u32>>, NoMemory>
    ensures { IfOk result (λ same. same ≡ map (λ list. list.items) lists.items) }
{
    let same: Vec<List<u32>> = lists
        .into_iter()
        .map(|list| List::from_vec(list))
        .collect(alloc)?;
    Ok(List::from_vec(same))
}

/// The sections without children, in rising number.
pub fn leaf_list(
    alloc: Global,
    neighbours: &[Option<u32>],
    child_lists: &[List<u32>],
) -> Result<List<u32>, NoMemory>
    requires few { length neighbours.now ≤ MAX_SECTIONS }
    requires children { child_lists.now ≡ lists_of neighbours.now }
    ensures { let tree : Tree = record { neighbours = neighbours.now; sides = [] } in
        IfOk result (λ leaves. leaves ≡ all_leaves tree) }
{
    let count = child_lists
        .iter()
        .filter(|list| list.as_slice().is_empty())
        .count();
    let mut leaves = Vec::with_capacity(alloc, count)?;
    for s in 0..child_lists.len() {
        if is_childless(child_lists, s) {
            leaves.push(s as u32)?;
        }
    }
    Ok(List::from_vec(leaves))
}

fn is_childless(child_lists: &[List<u32>], s: usize) -> bool
    requires { s < length child_lists.now }
    ensures { result ≡ (length (slice_index_or child_lists.now s []) == 0) }
{
    child_lists[s].as_slice().is_empty()
}

/// The sections of a side that stand at the fan, in rising number.
pub fn root_list(
    alloc: Global,
    neighbours: &[Option<u32>],
    sides: &[Side],
    side: Side,
) -> Result<List<u32>, NoMemory>
    requires few { length neighbours.now ≤ MAX_SECTIONS }
    requires sides { length sides.now ≡ length neighbours.now }
    ensures { let tree : Tree = record { neighbours = neighbours.now; sides = sides.now } in
        IfOk result (λ found. found ≡ roots tree side) }
{
    let count = neighbours
        .iter()
        .zip(sides)
        .filter(|at| at.0.is_none() && is_same(*at.1, side))
        .count();
    let mut found = Vec::with_capacity(alloc, count)?;
    for s in 0..neighbours.len() {
        if is_root_of(neighbours, sides, s, side) {
            found.push(s as u32)?;
        }
    }
    Ok(List::from_vec(found))
}

/// Whether a section of the side stands at the fan.
fn is_root_of(neighbours: &[Option<u32>], sides: &[Side], s: usize, side: Side) -> bool
    requires sides { length sides.now ≡ length neighbours.now }
    requires section { s < length neighbours.now }
    ensures { let tree : Tree = record { neighbours = neighbours.now; sides = sides.now } in
        result ≡ (same_side (side_of tree s) side && is_root tree s) }
{
    is_same(sides[s], side) && neighbours[s].is_none()
}
