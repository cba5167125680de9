//! Laws of losses and prices. Each is the contract of a call that has nothing to do.
ghost use Rattle.std.specs.Prelude.{◌≡◌, ◌+◌, pos, neg_ℤ, true, false, Some, None};
ghost use Rattle.duct_definitions.specs.declared.limits.TheConstants.{MAX_LOSS, MAX_PRICE};
ghost use Rattle.friction_table.specs.declared.limits.TheConstants.{MAX_FRICTION_LOSS};
ghost use Rattle.section_loss.specs.Fitting.{fitting_loss_of, LosesByVelocity};
ghost use Rattle.section_loss.specs.Loss.{loss_of, together_of};
ghost use Rattle.section_loss.specs.Price.{price_of};
ghost use Rattle.section_loss.specs.Worked.{main, left, right, narrow, wide, rates_of_narrow, rates_of_wide, fittings};

use crate::limits::{MAX_FITTING_LOSS, MAX_OWN_LOSS, VELOCITY_PRESSURE_UNITS};
use duct_definitions::MAX_DEVICE;

/// What no loss and no price passes, as numbers. Losses are in dPa, prices in cents.
pub fn limits_as_numbers()
    ensures units { VELOCITY_PRESSURE_UNITS ≡ 5 }
    ensures fitting { MAX_FITTING_LOSS ≡ 400_000_000_000_000 }
    ensures own { MAX_OWN_LOSS ≡ MAX_FRICTION_LOSS + MAX_FITTING_LOSS + MAX_DEVICE }
    ensures most { (MAX_LOSS ≡ 1_000_000_000_000_000) × (MAX_PRICE ≡ 1_000_000_000_000) }
{}

/// Wherever the air has a velocity in whole mm/s, a fitting loses its coefficient times half the density times the
/// square of the velocity, rounded up to whole dPa.
pub fn a_coefficient_loses_by_velocity()
    ensures { LosesByVelocity }
{}

/// Air of 1,200 g/m3, 1,000 l/s through 100,000 mm2, so 600 dPa of velocity pressure: a coefficient of -0.501 gives
/// -300, since -300.6 is rounded up, and 1 gives 600. Beside them 60 dPa are 0 and 660, and 360 dPa are 60.
pub fn a_worked_junction()
    ensures gain { fitting_loss_of 1_200 1_000 100_000 (neg_ℤ (pos 501)) ≡ neg_ℤ (pos 300) }
    ensures loss { fitting_loss_of 1_200 1_000 100_000 (pos 1_000) ≡ pos 600 }
    ensures at_least_0 { together_of 60 (neg_ℤ (pos 300)) ≡ 0 }
    ensures above_0 { together_of 360 (neg_ℤ (pos 300)) ≡ 60 }
    ensures sum { together_of 60 (pos 600) ≡ 660 }
{}

/// The network of docs/RULES.md, "Section loss": friction, local loss, junction and device, each rounded up.
pub fn losses_of_a_small_network()
    ensures above_the_last_row { loss_of main rates_of_narrow fittings narrow None ≡ None }
    ensures main_wide { loss_of main rates_of_wide fittings wide None ≡ Some 109 }
    ensures left_narrow { loss_of left rates_of_narrow fittings narrow (Some wide) ≡ Some 487 }
    ensures left_wide { loss_of left rates_of_wide fittings wide (Some wide) ≡ Some 185 }
    ensures right_wide { loss_of right rates_of_wide fittings wide (Some wide) ≡ Some 283 }
{}

/// 5,000 mm at 2,000 cents a metre cost 10,000, the join 500 and the step 300; 10,001 mm at 3,000 cents a metre cost
/// 30,003, and 1 mm costs 3.
pub fn a_worked_price()
    ensures stepped { price_of 5_000 narrow true ≡ 10_800 }
    ensures at_the_fan { price_of 10_000 wide false ≡ 30_800 }
    ensures rounded_up { price_of 1 record wide { metre = 2_001; join = 0 } false ≡ 3 }
{}
