//! What a section costs in each of its sizes with all beyond it, and the first size with the least price.
ghost use Rattle.std.specs.Prelude.{◌≡◌, ℕ, ◌+◌, ◌^◌, ◌<◌, ◌≤◌, IfSome, IsSome};
ghost use Rattle.duct_definitions.specs.declared.limits.TheConstants.{MAX_PRICE};
ghost use Rattle.duct_definitions.specs.Tree.{section_count, children};
ghost use Rattle.duct_definitions.specs.Network.{size_count, columns, pair_at, cap};
ghost use Rattle.duct_definitions.specs.Designs.{loss_of};
ghost use Rattle.least_laws.specs.Prices.{sum_of};
ghost use Rattle.least_laws.specs.LeastFromChildren.{least_in, least_with};
ghost use Rattle.least_laws.specs.Choosing.{Attains};
ghost use Rattle.contract_join.specs.SectionFronts.{AreFrontsOf};
ghost use Rattle.expand_sizes.specs.Descent.{CanBeSized};

use contract_join::SectionFronts;
use net_model::Network;

/// The first size of section `s` with the least price, beside size `g` of its neighbour, where `left` dPa of the
/// budget are left for it and all beyond it.
pub(crate) fn first_attaining(
    net: &Network,
    fronts: &[SectionFronts],
    s: u32,
    g: u32,
    left: u64,
) -> u32
    requires fronts { AreFrontsOf net.now fronts.now }
    requires sizable { CanBeSized net.now s g left }
    ensures attains { Attains net.now s g left result }
    ensures first { (k : ℕ) → k < result → Attains net.now s g left k → ⊥ }
{
    let least = fronts[s as usize].cheapest(g, left);
    for k in 0..net.size_count(s) {
        if price_with(net, fronts, s, k, g, left) == least {
            return k;
        }
    }
    unreachable!()
}

/// What section `s` in size `k` costs with all beyond it at least, cents; None where that needs more than is left.
fn price_with(
    net: &Network,
    fronts: &[SectionFronts],
    s: u32,
    k: u32,
    g: u32,
    left: u64,
) -> Option<u64>
    requires fronts { AreFrontsOf net.now fronts.now }
    requires section { s < section_count net.now.tree }
    requires size { k < size_count net.now s }
    requires beside { g < columns net.now s }
    requires within { left ≤ cap net.now }
    ensures { result ≡ least_with net.now (least_in net.now) s g left k }
{
    let pair = net.pair(s, k, g)?;
    let rest = left.checked_sub(pair.loss)?;
    let beyond = price_beyond(net, fronts, s, k, rest)?;
    Some(pair.price + beyond)
}

/// What all beyond section `s` costs at least, cents, beside its size `k` and within the budget, dPa.
fn price_beyond(net: &Network, fronts: &[SectionFronts], s: u32, k: u32, budget: u64) -> Option<u64>
    requires fronts { AreFrontsOf net.now fronts.now }
    requires section { s < section_count net.now.tree }
    requires size { k < size_count net.now s }
    requires within { budget ≤ cap net.now }
    ensures value { result ≡ sum_of (λ c. least_in net.now c k budget) (children net.now.tree s) }
    ensures fits { IfSome result (λ price. price + MAX_PRICE < 2 ^ 64) }
{
    let mut price = 0;
    for child in net.tree().children(s) {
        price += fronts[*child as usize].cheapest(k, budget)?;
    }
    Some(price)
}

/// What section `s` loses in size `k` beside size `g` of its neighbour, dPa; 0 where the two can't be joined.
pub(crate) fn loss_with(net: &Network, s: u32, k: u32, g: u32) -> u64
    requires section { s < section_count net.now.tree }
    requires size { k < size_count net.now s }
    requires beside { g < columns net.now s }
    ensures { result ≡ loss_of (pair_at net.now s k g) }
{
    net.pair(s, k, g).map_or(0, |pair| pair.loss)
}
