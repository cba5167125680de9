//! Laws of friction. Each is the contract of a call that has nothing to do.
ghost use Rattle.std.specs.Prelude.{◌≡◌, length as count};
ghost use Rattle.friction_table.specs.Loss.{Loses};
ghost use Rattle.friction_table.specs.Reading.{header};

use crate::limits::{
    COLUMNS, MAX_FRICTION_LOSS, MAX_RATE, MAX_ROWS, MILLIMETRES_PER_METRE,
    MILLIPASCALS_PER_DECIPASCAL, MIN_FLOW,
};
use duct_definitions::MAX_FLOW;

/// The limits of docs/FORMATS.md, "Friction", as numbers. Airflow is in l/s, the rate in mPa/m, the loss
/// in dPa.
pub fn limits_as_numbers()
    ensures columns { (COLUMNS ≡ 3) × (count header ≡ 3) }
    ensures rows { MAX_ROWS ≡ 64 }
    ensures flow { (MIN_FLOW ≡ 1) × (MAX_FLOW ≡ 200_000) }
    ensures rate { MAX_RATE ≡ 1_000_000 }
    ensures loss { MAX_FRICTION_LOSS ≡ 10_000_000 }
    ensures units { (MILLIMETRES_PER_METRE ≡ 1_000) × (MILLIPASCALS_PER_DECIPASCAL ≡ 100) }
{}

/// At a rate of 400 mPa/m, 10,000 mm lose 40 dPa, and 10,001 mm lose 41, since 40.004 is rounded up.
pub fn a_worked_loss()
    ensures exact { Loses 400 10_000 40 }
    ensures rounded_up { Loses 400 10_001 41 }
{}
