//! What the sections carry, from the last section to the first, and the rules of airflows.
ghost use Rattle.std.specs.Prelude.{◌≡◌, ◌<◌, ◌≤◌, ◌+◌, ◌*◌, min, length, All, IfSome, IfOk, sum_by, slice_index};
ghost use Rattle.std.specs.List.{flat_map, range_with_len};
ghost use Rattle.duct_units.specs.Rules.{first_broken};
ghost use Rattle.duct_definitions.specs.declared.airflow.TheConstants.{MAX_FLOW, MAX_LEAK};
ghost use Rattle.duct_definitions.specs.declared.limits.TheConstants.{MAX_SECTIONS};
ghost use Rattle.duct_definitions.specs.Tree.{section_count, sections};
ghost use Rattle.duct_definitions.specs.Airflow.{Airflows, leaf_rules, bound_rules, with_leak, passing};
ghost use Rattle.air_tree.specs.CarriedFlows.{known, AreKnown};

use crate::tree::AirTree;
use duct_definitions::{MAX_FLOW, THOUSANDTHS};
use duct_units::{Fault, NoMemory, Reason};
use std::alloc::Global;

/// The first leaf without an airflow, or other section with one.
pub fn broken_leaf(tree: &AirTree, leaf_flows: &[Option<u64>]) -> Option<Fault>
    requires { length leaf_flows.now ≡ section_count tree.now }
    ensures { result ≡ first_broken (flat_map (leaf_rules tree.now leaf_flows.now) (sections tree.now)) }
{
    for s in 0..tree.len() {
        if let Some(fault) = broken_at(tree, leaf_flows, s) {
            return Some(fault);
        }
    }
    None
}

fn broken_at(tree: &AirTree, leaf_flows: &[Option<u64>], s: u32) -> Option<Fault>
    requires count { length leaf_flows.now ≡ section_count tree.now }
    requires few { section_count tree.now ≤ MAX_SECTIONS }
    requires section { s < section_count tree.now }
    ensures { result ≡ first_broken (leaf_rules tree.now leaf_flows.now s) }
{
    let is_leaf = tree.is_leaf(s);
    let is_given = leaf_flows[s as usize].is_some();
    if is_leaf && !is_given {
        return Some(Fault::of_section(s + 1, Reason::FlowMissing));
    }
    if !is_leaf && is_given {
        return Some(Fault::of_section(s + 1, Reason::FlowGiven));
    }
    None
}

/// The first section that carries more than a section may.
pub fn broken_bound(carried: &[u64]) -> Option<Fault>
    requires { length carried.now ≤ MAX_SECTIONS }
    ensures { result ≡ first_broken
        (flat_map (bound_rules (slice_index carried.now)) (range_with_len 0 (length carried.now))) }
{
    for s in 0..carried.len() {
        if carried[s] > MAX_FLOW {
            return Some(Fault::of_section(s as u32 + 1, Reason::FlowTooLarge));
        }
    }
    None
}

/// What each section carries, l/s, or one above the bound where that is more.
pub fn carried_flows(
    alloc: Global,
    tree: &AirTree,
    leaf_flows: &[Option<u64>],
    leaks: &[u64],
) -> Result<Vec<u64>, NoMemory>
    requires flow_count { length leaf_flows.now ≡ section_count tree.now }
    requires leak_count { length leaks.now ≡ section_count tree.now }
    requires flows { All (λ given. IfSome given (λ q. q ≤ MAX_FLOW)) leaf_flows.now }
    requires leaks { All (λ leak. leak ≤ MAX_LEAK) leaks.now }
    ensures known { IfOk result (λ carried. AreKnown tree.now
        (record { at_leaves = leaf_flows.now; leaks = leaks.now }) 0 carried.items) }
    ensures few { IfOk result (λ carried. length carried.items ≤ MAX_SECTIONS) }
{
    let mut carried = vec![in alloc; 0; tree.len() as usize]?;
    carry(tree, leaf_flows, leaks, &mut carried);
    Ok(carried)
}

/// Writes of each section what it carries, by what its children carry, which stand later.
fn carry(tree: &AirTree, leaf_flows: &[Option<u64>], leaks: &[u64], carried: &mut [u64])
    requires count { length carried.old ≡ section_count tree.now }
    requires flow_count { length leaf_flows.now ≡ section_count tree.now }
    requires leak_count { length leaks.now ≡ section_count tree.now }
    requires flows { All (λ given. IfSome given (λ q. q ≤ MAX_FLOW)) leaf_flows.now }
    requires leaks { All (λ leak. leak ≤ MAX_LEAK) leaks.now }
    ensures { AreKnown tree.now (record { at_leaves = leaf_flows.now; leaks = leaks.now }) 0 carried.new }
{
    for s in (0..tree.len()).rev() {
        let q = passing(tree, leaf_flows, leaks, carried, s);
        carried[s as usize] = known_with_leak(leaks[s as usize], q);
    }
}

/// What is to pass section `s`, l/s, where what its children carry is known.
fn passing(
    tree: &AirTree,
    leaf_flows: &[Option<u64>],
    leaks: &[u64],
    carried: &[u64],
    s: u32,
) -> u64
    requires section { s < section_count tree.now }
    requires flow_count { length leaf_flows.now ≡ section_count tree.now }
    requires flows { All (λ given. IfSome given (λ q. q ≤ MAX_FLOW)) leaf_flows.now }
    requires known { AreKnown tree.now (record { at_leaves = leaf_flows.now; leaks = leaks.now }) (s + 1) carried.now }
    ensures value { result ≡ passing (slice_index carried.now) tree.now
        (record { at_leaves = leaf_flows.now; leaks = leaks.now }) s }
    ensures bound { result ≤ MAX_SECTIONS * (MAX_FLOW + 1) }
{
    if tree.is_leaf(s) {
        leaf_flows[s as usize].unwrap_or(0)
    } else {
        sum_at(carried, tree.children(s))
    }
}

/// The sum of the numbers of these sections.
pub fn sum_at(numbers: &[u64], sections: &[u32]) -> u64
    requires sections { All (λ s. s < length numbers.now) sections.now }
    requires few { length sections.now ≤ MAX_SECTIONS }
    requires bound { All (λ s. slice_index numbers.now s ≤ MAX_FLOW + 1) sections.now }
    ensures value { result ≡ sum_by (slice_index numbers.now) sections.now }
    ensures bound { result ≤ MAX_SECTIONS * (MAX_FLOW + 1) }
{
    let mut sum = 0;
    for s in sections {
        sum += numbers[*s as usize];
    }
    sum
}

/// What a section carries where `q` l/s are to pass it, or one above the bound where that is more.
fn known_with_leak(leak: u64, q: u64) -> u64
    requires leak { leak ≤ MAX_LEAK }
    requires bound { q ≤ MAX_SECTIONS * (MAX_FLOW + 1) }
    ensures { result ≡ known (with_leak leak q) }
{
    (q * (THOUSANDTHS + leak))
        .div_ceil(THOUSANDTHS)
        .min(MAX_FLOW + 1)
}
