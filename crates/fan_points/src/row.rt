//! A fan point, which is the row of a file that says it.
ghost use Rattle.std.specs.Prelude.{◌≡◌, IfSome};
ghost use Rattle.fan_points.specs.FanRow.{fan_of_row, IsFanInBounds};

use crate::limits::{MAX_FAN_FLOW, MAX_FAN_PRESSURE, MAX_FAN_PRICE, MAX_WATTS, MIN_FAN_PRESSURE};
use csv_fields::Rows;
use duct_units::Name;

/// A fan at one pressure.
#[derive(Clone, Copy)]
pub struct FanRow {
    /// Its name, which no other fan of the catalogue has.
    pub name: Name,
    /// The pressure that it gives, dPa.
    pub pressure: u64,
    /// The least airflow that it serves, l/s.
    pub low: u64,
    /// The greatest airflow that it serves, l/s.
    pub high: u64,
    /// Its price, cents.
    pub price: u64,
    /// The power that it takes, W.
    pub watts: u64,
}

/// What the row at hand says; none where a field isn't of its form or lies out of its bound.
pub fn fan_row(rows: &Rows<'_>) -> Option<FanRow>
    ensures value { result ≡ fan_of_row rows.now.row }
    ensures bounds { IfSome result IsFanInBounds }
{
    Some(FanRow {
        name: rows.name(0)?,
        pressure: rows.number(1, MIN_FAN_PRESSURE, MAX_FAN_PRESSURE)?,
        low: rows.number(2, 0, MAX_FAN_FLOW)?,
        high: rows.number(3, 0, MAX_FAN_FLOW)?,
        price: rows.number(4, 0, MAX_FAN_PRICE)?,
        watts: rows.number(5, 0, MAX_WATTS)?,
    })
}
