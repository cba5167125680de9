//! What a fitting loses by its coefficient, and the ratios at a junction.
ghost use Rattle.std.specs.Prelude.{◌≡◌, ◌*◌, ◌≤◌, ◌≤ℤ◌, pos, neg_ℤ};
ghost use Rattle.fitting_tables.specs.declared.limits.TheConstants.{MIN_VALUE, MAX_VALUE};
ghost use Rattle.size_catalogue.specs.declared.limits.TheConstants.{MIN_AREA, MAX_AREA};
ghost use Rattle.section_loss.specs.Facts.{IsFacts};
ghost use Rattle.section_loss.specs.Fitting.{fitting_loss_of, ratio_of, velocity_product, IsFittingLoss, IsRatio};

use crate::facts::SectionFacts;
use crate::limits::{MAX_FITTING_LOSS, VELOCITY_PRESSURE_UNITS};
use duct_definitions::THOUSANDTHS;
use duct_units::ceil_div;

/// What a coefficient in thousandths loses where the section's air passes the area in mm2, dPa: the coefficient times
/// the velocity pressure, rounded up. A coefficient below 0 gains, and its fraction goes towards 0.
pub fn fitting_loss(facts: &SectionFacts, area: u64, coefficient: i64) -> i64
    requires facts { IsFacts facts.now }
    requires area { (MIN_AREA ≤ area) × (area ≤ MAX_AREA) }
    requires coefficient { (MIN_VALUE ≤ℤ coefficient) × (coefficient ≤ℤ MAX_VALUE) }
    ensures value { result ≡ fitting_loss_of facts.now.density facts.now.flow area coefficient }
    ensures ceiling { IsFittingLoss facts.now.density facts.now.flow area coefficient result }
    ensures bounds { (neg_ℤ (pos MAX_FITTING_LOSS) ≤ℤ result) × (result ≤ℤ pos MAX_FITTING_LOSS) }
{
    let product = i128::from(coefficient) * i128::from(velocity_product(facts));
    ceil_div(product, i128::from(area * area)) as i64
}

// The density by the square of the airflow, in the units of a velocity pressure.
fn velocity_product(facts: &SectionFacts) -> u64
    requires { IsFacts facts.now }
    ensures value { result ≡ velocity_product facts.now.density facts.now.flow }
    ensures most { result ≤ 400_000_000_000_000 }
{
    VELOCITY_PRESSURE_UNITS * facts.density * facts.flow * facts.flow
}

/// The part over the whole, in thousandths, rounded up.
pub fn ratio(part: u64, whole: u64) -> u64
    requires part { part ≤ MAX_AREA }
    requires whole { 1 ≤ whole }
    ensures value { result ≡ ratio_of part whole }
    ensures ceiling { IsRatio part whole result }
{
    (THOUSANDTHS * part).div_ceil(whole)
}
