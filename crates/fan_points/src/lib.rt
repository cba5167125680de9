//! The fan points of a catalogue: at which airflows a fan serves, and what its energy is worth.
//!
//! Pressure is in dPa, airflow in l/s, money in cents, power in W. Fans count from 0, in file order. Energy is rounded
//! up once (docs/RULES.md, "Energy").
#![tactic(auto)]

mod cost;
mod fans;
mod laws;
mod limits;
mod reading;
mod row;
mod terms;

pub use cost::{eligible, energy};
pub use fans::Fans;
pub use laws::{a_worked_energy, limits_as_numbers};
pub use limits::{
    COLUMNS, ENERGY_UNITS, MAX_ENERGY_COST, MAX_FAN_FLOW, MAX_FAN_PRESSURE, MAX_FAN_PRICE,
    MAX_HOURS, MAX_POINTS, MAX_TARIFF, MAX_WATTS, MAX_WORTH, MIN_FAN_PRESSURE,
};
pub use reading::read_fans;
pub use row::FanRow;
pub use terms::Energy;
