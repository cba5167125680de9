//! Laws of fan points. Each is the contract of a call that has nothing to do.
ghost use Rattle.std.specs.Prelude.{◌≡◌, length};
ghost use Rattle.fan_points.specs.Energy.{EnergyCosts};
ghost use Rattle.fan_points.specs.Reading.{header};

use crate::limits::{
    COLUMNS, ENERGY_UNITS, MAX_ENERGY_COST, MAX_FAN_FLOW, MAX_FAN_PRESSURE, MAX_FAN_PRICE,
    MAX_HOURS, MAX_POINTS, MAX_TARIFF, MAX_WATTS, MAX_WORTH, MIN_FAN_PRESSURE,
};

/// The limits of docs/FORMATS.md, "Fans", and those of docs/RULES.md, "Energy", as numbers. Pressure is in dPa, airflow
/// in l/s, money in cents, power in W, the tariff in hundredths of a cent per kWh, worth in thousandths.
pub fn limits_as_numbers()
    ensures columns { (COLUMNS ≡ 6) × (length header ≡ 6) }
    ensures fans { MAX_POINTS ≡ 64 }
    ensures pressure { (MIN_FAN_PRESSURE ≡ 1) × (MAX_FAN_PRESSURE ≡ 20_000) }
    ensures flow { MAX_FAN_FLOW ≡ 100_000_000 }
    ensures price { MAX_FAN_PRICE ≡ 10_000_000_000 }
    ensures watts { MAX_WATTS ≡ 1_000_000 }
    ensures hours { MAX_HOURS ≡ 8_784 }
    ensures tariff { MAX_TARIFF ≡ 1_000_000 }
    ensures worth { MAX_WORTH ≡ 1_000_000 }
    ensures energy { (ENERGY_UNITS ≡ 100_000_000) × (MAX_ENERGY_COST ≡ 87_840_000_000_000) }
{}

/// 3,000 hours at 15 cents per kWh, worth 5 times a year's cost: 2,000 W cost 450,000 cents, and 500 W cost 112,500.
pub fn a_worked_energy()
    ensures of_2000_watts { EnergyCosts 2_000 3_000 1_500 5_000 450_000 }
    ensures of_500_watts { EnergyCosts 500 3_000 1_500 5_000 112_500 }
{}
