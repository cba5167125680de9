//! Whether a section's fronts keep those of its children.
ghost use Rattle.std.specs.Prelude.{◌≡◌, ℕ, ◌<◌, ◌^◌, ◌↔◌, IsTrue};
ghost use Rattle.duct_definitions.specs.Tree.{section_count};
ghost use Rattle.duct_definitions.specs.Network.{size_count, columns, cap};
ghost use Rattle.front_certificate.specs.Sound.{HoldsBeside, HoldsAt, IsSoundSection};

use crate::stated::Stated;

/// Whether section `s` is sound.
pub(crate) fn is_sound_section(stated: &Stated, s: u32) -> bool
    requires { s < section_count stated.now.net.tree }
    ensures { IsTrue result ↔ IsSoundSection stated.now.net stated.now.fronts s }
{
    for k in 0..stated.network().size_count(s) {
        if !holds_in(stated, s, k) {
            return false;
        }
    }
    true
}

/// Whether section `s` in size `k` keeps the bounds of its children, whatever is left for them. Their sum falls at
/// their needs alone, so these are tested, and nothing left, as for a leaf.
fn holds_in(stated: &Stated, s: u32, k: u32) -> bool
    requires section { s < section_count stated.now.net.tree }
    requires size { k < size_count stated.now.net s }
    ensures { IsTrue result ↔ ((rest : ℕ) → HoldsAt stated.now.net stated.now.fronts s k rest) }
{
    if !holds_at(stated, s, k, 0) {
        return false;
    }
    stated.tell_fronts();
    let children = stated.children(s);
    let mut rest = 0;
    while let Some(need) = stated.next_need(children, k, rest) {
        if !holds_at(stated, s, k, need) {
            return false;
        }
        rest = need;
    }
    true
}

/// Whether section `s` in size `k` keeps the bounds of its children where `rest` is left for them, dPa.
fn holds_at(stated: &Stated, s: u32, k: u32, rest: u64) -> bool
    requires section { s < section_count stated.now.net.tree }
    requires size { k < size_count stated.now.net s }
    ensures { IsTrue result ↔ HoldsAt stated.now.net stated.now.fronts s k rest }
{
    let net = stated.network();
    let Some(sum) = stated.bound_sum(stated.children(s), k, rest) else {
        return true;
    };
    let most = net.cap();
    for g in 0..net.columns(s) {
        if !holds_beside(stated, s, k, rest, sum, g, most) {
            return false;
        }
    }
    true
}

/// The same beside size `g` of the neighbour, where the children's bounds add to `sum`, cents, and the greatest fan
/// pressure is `most`, dPa.
fn holds_beside(stated: &Stated, s: u32, k: u32, rest: u64, sum: u128, g: u32, most: u64) -> bool
    requires section { s < section_count stated.now.net.tree }
    requires size { k < size_count stated.now.net s }
    requires beside { g < columns stated.now.net s }
    requires most { most ≡ cap stated.now.net }
    requires fits { sum < 2 ^ 100 }
    ensures { IsTrue result ↔ HoldsBeside stated.now.net stated.now.fronts s k rest sum g }
{
    let Some(pair) = stated.network().pair(s, k, g) else {
        return true;
    };
    if rest > most || pair.loss > most - rest {
        return true;
    }
    match stated.bound(s, g, pair.loss + rest) {
        None => false,
        Some(cost) => u128::from(cost) <= u128::from(pair.price) + sum,
    }
}
