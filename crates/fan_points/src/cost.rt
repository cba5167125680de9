//! At which airflows a fan serves, and what its energy is worth.
ghost use Rattle.std.specs.Prelude.{◌≡◌, ◌↔◌, ◌≤◌, ◌+◌, IsTrue};
ghost use Rattle.duct_definitions.specs.declared.limits.TheConstants.{MAX_FAN_COST};
ghost use Rattle.fan_points.specs.FanRow.{IsFanInBounds};
ghost use Rattle.fan_points.specs.Energy.{IsEnergy, IsEnergyCost, energy_of, Serves, serves};

use crate::limits::{ENERGY_UNITS, MAX_ENERGY_COST};
use crate::row::FanRow;
use crate::terms::Energy;

/// The cost of the fan's energy, cents: the least whole number that is enough (docs/RULES.md, "Energy").
pub fn energy(fan: &FanRow, terms: &Energy) -> u64
    requires fan { IsFanInBounds fan.now }
    requires terms { IsEnergy terms.now }
    ensures value { result ≡ energy_of fan.now terms.now }
    ensures cost { IsEnergyCost fan.now terms.now result }
    ensures most { result ≤ MAX_ENERGY_COST }
    ensures fan_cost { fan.now.price + result ≤ MAX_FAN_COST }
{
    let yearly = u128::from(fan.watts) * u128::from(terms.hours) * u128::from(terms.tariff);
    (yearly * u128::from(terms.worth)).div_ceil(u128::from(ENERGY_UNITS)) as u64
}

/// Whether the fan serves the airflow, l/s. Both ends of its range count.
pub fn eligible(fan: &FanRow, q: u64) -> bool
    ensures value { result ≡ serves q fan.now }
    ensures range { IsTrue result ↔ Serves fan.now q }
{
    fan.low <= q && q <= fan.high
}
