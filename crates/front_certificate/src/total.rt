//! Whether the total keeps the fans and the fronts at the fan.
ghost use Rattle.std.specs.Prelude.{◌≡◌, ℕ, ◌+◌, ◌<◌, ◌≤◌, ◌^◌, ◌↔◌, IsTrue, Some, None, length};
ghost use Rattle.duct_units.specs.declared.side.Side.TheVariants.{Supply};
ghost use Rattle.front_certificate.specs.Sound.{IsNoLess, IsSoundTotal, split_sum, side_bound};
ghost use Rattle.duct_definitions.specs.Network.{fan_at};
ghost use Rattle.front_certificate.specs.Tests.{SharedHold, OwnHold};

use crate::stated::Stated;
use duct_units::Side;

/// Whether no split of fans and pressures costs less than the total, cents; without a total, whether none has a sum.
pub(crate) fn is_sound_total(stated: &Stated, total: Option<u64>) -> bool
    ensures { IsTrue result ↔ IsSoundTotal stated.now.net stated.now.fronts total }
{
    shared_fans_hold(stated, total) && own_fans_hold(stated, total)
}

/// Whether this holds of every fan that serves both sides. What is left for the return side is most where the supply
/// budget is a need of a supply front or nothing, so these are tested.
fn shared_fans_hold(stated: &Stated, total: Option<u64>) -> bool
    ensures { IsTrue result ↔ ((budget : ℕ) → SharedHold stated.now.net stated.now.fronts total budget) }
{
    if !shared_hold(stated, total, 0) {
        return false;
    }
    stated.tell_fronts();
    let roots = stated.roots(Side::Supply);
    let mut budget = 0;
    while let Some(need) = stated.next_need(roots, 0, budget) {
        if !shared_hold(stated, total, need) {
            return false;
        }
        budget = need;
    }
    true
}

/// Whether this holds of every fan that gives the supply side this budget, dPa, and the return side the rest.
fn shared_hold(stated: &Stated, total: Option<u64>, budget: u64) -> bool
    ensures { IsTrue result ↔ SharedHold stated.now.net stated.now.fronts total budget }
{
    let net = stated.network();
    let Some(supply) = stated.bound_sum(stated.roots(Side::Supply), 0, budget) else {
        return true;
    };
    for fan in 0..net.fan_count() {
        if !shared_holds(stated, total, fan, budget, supply) {
            return false;
        }
    }
    true
}

/// Whether this holds of one fan, where the fronts of the supply side add to `supply`, cents.
fn shared_holds(stated: &Stated, total: Option<u64>, fan: u32, budget: u64, supply: u128) -> bool
    requires fan { fan < length stated.now.net.fans }
    requires supply { side_bound stated.now.net stated.now.fronts Supply budget ≡ Some supply }
    requires fits { supply < 2 ^ 100 }
    ensures { IsTrue result ↔ (budget ≤ (fan_at stated.now.net fan).pressure
        → IsNoLess total (split_sum stated.now.net stated.now.fronts fan None budget)) }
{
    let net = stated.network();
    let fan = net.fan(fan);
    if budget > fan.pressure {
        return true;
    }
    let left = fan.pressure - budget;
    match stated.bound_sum(stated.roots(Side::Return), 0, left) {
        None => true,
        Some(back) => is_no_less(total, u128::from(fan.cost) + (supply + back)),
    }
}

/// Whether this holds of every fan beside every return fan.
fn own_fans_hold(stated: &Stated, total: Option<u64>) -> bool
    ensures { IsTrue result ↔ ((fan own : ℕ) → fan < length stated.now.net.fans
        → own < length stated.now.net.return_fans → OwnHold stated.now.net stated.now.fronts total fan own) }
{
    for fan in 0..stated.network().fan_count() {
        if !own_hold(stated, total, fan) {
            return false;
        }
    }
    true
}

/// Whether this holds of one fan beside every return fan.
fn own_hold(stated: &Stated, total: Option<u64>, fan: u32) -> bool
    requires { fan < length stated.now.net.fans }
    ensures { IsTrue result ↔ ((own : ℕ) → own < length stated.now.net.return_fans
        → OwnHold stated.now.net stated.now.fronts total fan own) }
{
    for own in 0..stated.network().return_fan_count() {
        if !own_holds(stated, total, fan, own) {
            return false;
        }
    }
    true
}

/// Whether this holds of a fan beside a return fan, each with its whole pressure.
fn own_holds(stated: &Stated, total: Option<u64>, fan: u32, own: u32) -> bool
    requires fan { fan < length stated.now.net.fans }
    requires own { own < length stated.now.net.return_fans }
    ensures { IsTrue result ↔ OwnHold stated.now.net stated.now.fronts total fan own }
{
    let net = stated.network();
    let fan = net.fan(fan);
    let own = net.return_fan(own);
    let supply = stated.bound_sum(stated.roots(Side::Supply), 0, fan.pressure);
    let back = stated.bound_sum(stated.roots(Side::Return), 0, own.pressure);
    match (supply, back) {
        (Some(supply), Some(back)) => is_no_less(
            total,
            u128::from(fan.cost) + u128::from(own.cost) + (supply + back),
        ),
        _ => true,
    }
}

/// Whether a split's sum is no less than the total, cents; never, without a total.
fn is_no_less(total: Option<u64>, sum: u128) -> bool
    ensures { IsTrue result ↔ IsNoLess total (Some sum) }
{
    match total {
        None => false,
        Some(total) => u128::from(total) <= sum,
    }
}
