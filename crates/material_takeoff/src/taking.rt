//! The material list of a design.
ghost use Rattle.std.specs.Prelude.{◌≡◌, ◌≢◌, ◌↔◌, ◌≤◌, ◌+◌, ℕ, IfOk, OnOk, Err, length, All, sum_by};
ghost use Rattle.duct_definitions.specs.declared.limits.TheConstants.{MAX_SECTIONS};
ghost use Rattle.duct_definitions.specs.declared.duct.TheConstants.{MAX_LENGTH};
ghost use Rattle.material_takeoff.specs.declared.record.TakeOffError.TheVariants.{Names, Total};
ghost use Rattle.material_takeoff.specs.Agreement.{section_names, IsFirstDifference};
ghost use Rattle.material_takeoff.specs.Uses.{take_off, fans_cost, sections_price, AddsUp};

use crate::agreement::{first_difference, is_sum};
use crate::counting::size_uses;
use crate::record::{TakeOff, TakeOffError};
use duct_definitions::{Listed, MAX_LENGTH, MAX_SECTIONS};
use duct_units::{List, Name};
use std::alloc::Global;

/// What the design takes of each size; `names` and `lengths` are those of the project's sections, in file order.
pub fn takeoff(
    alloc: Global,
    names: &List<Name>,
    lengths: &List<u64>,
    listed: &Listed,
) -> Result<TakeOff, TakeOffError>
    requires same_length { length names.now ≡ length lengths.now }
    requires few { length names.now ≤ MAX_SECTIONS }
    requires lengths { All (λ length. length ≤ MAX_LENGTH) lengths.now }

    ensures value { IfOk result (λ t. t ≡ take_off lengths.now listed.now) }
    ensures sums { IfOk result (AddsUp lengths.now listed.now) }
    ensures cost { IfOk result (λ t. sum_by (λ u. u.price) t.sizes + fans_cost listed.now ≡ listed.now.total) }

    ensures same_names { IfOk result (λ _. names.now ≡ section_names listed.now) }

    // The first difference in names comes before a wrong total.
    ensures names { (n : ℕ) → (result ≡ Err (Names n)) ↔ IsFirstDifference names.now (section_names listed.now) n }
    ensures total { (result ≡ Err Total)
        ↔ ((names.now ≡ section_names listed.now)
        × (listed.now.total ≢ sections_price listed.now + fans_cost listed.now)) }
{
    if let Some(n) = first_difference(names.as_slice(), listed.sections.as_slice()) {
        return Err(TakeOffError::Names(n));
    }
    if !is_sum(listed) {
        return Err(TakeOffError::Total);
    }
    let sizes = size_uses(alloc, listed.sections.as_slice(), lengths.as_slice())?;
    Ok(TakeOff { sizes })
}
