//! What a made section loses and costs in its sizes beside those of its neighbour.
ghost use Rattle.std.specs.Prelude.{◌≡◌, ◌++◌, ◌<◌, ◌≤◌, IfOk, OnOk};
ghost use Rattle.duct_definitions.specs.declared.limits.TheConstants.{MAX_SECTIONS};
ghost use Rattle.duct_load.specs.Made.{columns_of, is_left_out, change_loss, loss_of, price_of, pair_of, pairs_in_size, pairs_of};

use crate::numbering::is_at_fan;
use duct_definitions::Pair;
use duct_units::{List, NoMemory};
use std::alloc::Global;

/// How many sizes each made section has.
pub(crate) const SIZES: u32 = 8;

/// The pairs of section `i`, by its own size and then by its neighbour's; None where a pair is left out.
#[tactic(auto, using(crate::proofs::RangeLaws::flat_more))]
pub(crate) fn pairs_of(alloc: Global, i: u32) -> Result<List<Option<Pair>>, NoMemory>
    requires { i < MAX_SECTIONS }
    ensures { IfOk result (λ pairs. pairs ≡ pairs_of i) }
{
    let mut pairs = Vec::new(alloc);
    for k in 0..SIZES {
        add_pairs(&mut pairs, i, k)?;
    }
    Ok(List::from_vec(pairs))
}

// The pairs of section `i` in size `k`, added behind those of the sizes before it.
#[tactic(auto, using(crate::proofs::RangeLaws::map_more))]
fn add_pairs(pairs: &mut Vec<Option<Pair>>, i: u32, k: u32) -> Result<(), NoMemory>
    requires section { i < MAX_SECTIONS }
    requires size { k < SIZES }
    ensures { OnOk result (pairs.new.items ≡ pairs.old.items ++ pairs_in_size i k) }
{
    for g in 0..columns_of(i) {
        pairs.push(pair_of(i, k, g))?;
    }
    Ok(())
}

// How many sizes stand beside section `i`: its neighbour's, and 1 at the fan.
fn columns_of(i: u32) -> u32
    requires { i < MAX_SECTIONS }
    ensures value { result ≡ columns_of i }
    ensures few { result ≤ SIZES }
{
    if is_at_fan(i) { 1 } else { SIZES }
}

// Section `i` in size `k` beside size `g` of its neighbour, 0 at the fan.
fn pair_of(i: u32, k: u32, g: u32) -> Option<Pair>
    requires section { i < MAX_SECTIONS }
    requires size { k < SIZES }
    requires beside { g < SIZES }
    ensures { result ≡ pair_of i k g }
{
    if is_left_out(i, k, g) {
        return None;
    }
    Some(Pair {
        loss: loss_of(i, k, g),
        price: price_of(i, k, g),
    })
}

// About one pair in eleven is left out; those of the first and the last size are all there.
fn is_left_out(i: u32, k: u32, g: u32) -> bool
    requires section { i < MAX_SECTIONS }
    requires size { k < SIZES }
    requires beside { g < SIZES }
    ensures { result ≡ is_left_out i k g }
{
    0 < k && k < SIZES - 1 && (i + 3 * k + 5 * g) % 11 == 0
}

// What section `i` loses, dPa: less in a greater size, and 5 more beside another size.
fn loss_of(i: u32, k: u32, g: u32) -> u64
    requires section { i < MAX_SECTIONS }
    requires size { k < SIZES }
    ensures { result ≡ loss_of i k g }
{
    u64::from(10 + 37 * i % 23 + 20 * (SIZES - 1 - k) + change_loss(i, k, g))
}

// What the change of size loses, dPa: nothing at the fan or beside the same size.
fn change_loss(i: u32, k: u32, g: u32) -> u32
    requires { i < MAX_SECTIONS }
    ensures { result ≡ change_loss i k g }
{
    if is_at_fan(i) || k == g { 0 } else { 5 }
}

// What section `i` costs, cents: more in a greater size.
fn price_of(i: u32, k: u32, g: u32) -> u64
    requires section { i < MAX_SECTIONS }
    requires size { k < SIZES }
    requires beside { g < SIZES }
    ensures { result ≡ price_of i k g }
{
    u64::from(100 + 60 * k + (53 * i + 17 * k + 7 * g) % 41)
}
