//! Whether the project and the design's text have the same sections, and whether the listed total is the sum.
ghost use Rattle.std.specs.Prelude.{◌≡◌, ◌≢◌, ◌↔◌, ◌≤◌, ◌<◌, ◌+◌, ◌^◌, IsNone, IfSome, IsTrue, length, map, sum_by, slice_get, Some};
ghost use Rattle.duct_definitions.specs.declared.limits.TheConstants.{MAX_SECTIONS};
ghost use Rattle.material_takeoff.specs.Agreement.{IsFirstDifference};
ghost use Rattle.material_takeoff.specs.Uses.{fans_cost, return_fan_cost, sections_price};

use duct_definitions::{Listed, ListedFan, ListedSection, MAX_SECTIONS};
use duct_units::Name;

/// The first section, counted from 1, whose names differ or which one of the lists lacks.
pub(crate) fn first_difference(names: &[Name], sections: &[ListedSection]) -> Option<u32>
    requires { length names.now ≤ MAX_SECTIONS }
    ensures none { IsNone result ↔ (names.now ≡ map (λ s. s.name) sections.now) }
    ensures first { IfSome result (IsFirstDifference names.now (map (λ s. s.name) sections.now)) }
{
    for (place, name) in names.iter().enumerate() {
        if !is_listed_at(sections, place, name) {
            return Some(place as u32 + 1);
        }
    }
    if names.len() < sections.len() {
        Some(names.len() as u32 + 1)
    } else {
        None
    }
}

/// Whether the section of this name is listed at the place, from 0.
fn is_listed_at(sections: &[ListedSection], place: usize, name: &Name) -> bool
    ensures { IsTrue result ↔ (slice_get (map (λ s. s.name) sections.now) place ≡ Some name.now) }
{
    place < sections.len() && sections[place].name == *name
}

/// Whether the listed total is what the listed sections and fans cost together.
pub(crate) fn is_sum(listed: &Listed) -> bool
    ensures { IsTrue result ↔ (listed.now.total ≡ sections_price listed.now + fans_cost listed.now) }
{
    u128::from(listed.total) == sections_price(listed.sections.as_slice()) + fans_cost(listed)
}

/// What the sections cost together.
fn sections_price(sections: &[ListedSection]) -> u128
    ensures value { result ≡ sum_by (λ s. s.price) sections.now }
    ensures bound { result ≤ 2 ^ 127 }
{
    let mut price = 0u128;
    for section in sections {
        price += u128::from(section.price);
    }
    price
}

/// What the listed fans cost together.
fn fans_cost(listed: &Listed) -> u128
    ensures value { result ≡ fans_cost listed.now }
    ensures bound { result < 2 ^ 65 }
{
    u128::from(listed.fan_cost) + u128::from(return_fan_cost(&listed.back))
}

/// What the return fan costs, 0 where there is none.
fn return_fan_cost(back: &Option<ListedFan>) -> u64
    ensures { result ≡ return_fan_cost back.now }
{
    match back {
        None => 0,
        Some(fan) => fan.cost,
    }
}
