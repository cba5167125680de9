//! A rate, and the row of a file that says it.
ghost use Rattle.std.specs.Prelude.{◌≡◌, IfSome};
ghost use Rattle.friction_table.specs.FrictionRow.{row_of_fields};
ghost use Rattle.friction_table.specs.Rates.{IsRate};

use crate::limits::{MAX_RATE, MIN_FLOW};
use csv_fields::Rows;
use duct_definitions::MAX_FLOW;
use duct_units::Name;

/// The friction rate of a size at an airflow.
#[derive(Clone, Copy)]
pub struct FlowRate {
    /// The airflow, l/s.
    pub flow: u64,
    /// The rate, mPa/m.
    pub rate: u64,
}

/// What a row of a friction file says.
#[derive(Clone, Copy)]
pub struct FrictionRow {
    /// The name of the size.
    pub size: Name,
    /// Its rate at an airflow.
    pub at: FlowRate,
}

/// What the row at hand says; none where a field isn't of its form or lies out of its bound.
pub fn friction_row(rows: &Rows<'_>) -> Option<FrictionRow>
    ensures value { result ≡ row_of_fields rows.now.row }
    ensures bounds { IfSome result (λ row. IsRate row.at) }
{
    let size = rows.name(0)?;
    let flow = rows.number(1, MIN_FLOW, MAX_FLOW)?;
    let rate = rows.number(2, 0, MAX_RATE)?;
    Some(FrictionRow {
        size,
        at: FlowRate { flow, rate },
    })
}
