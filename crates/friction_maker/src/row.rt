//! The row of a ducts file.
ghost use Rattle.std.specs.Prelude.{◌≡◌, IfSome};
ghost use Rattle.friction_maker.specs.DuctRow.{duct_of_row, IsRowInBounds};

use crate::limits::{MAX_DIAMETER, MAX_ROUGH, MIN_DIAMETER, MIN_ROWS};
use csv_fields::Rows;
use duct_definitions::MAX_FLOW;
use duct_units::Name;
use friction_table::{MAX_ROWS, MIN_FLOW};

/// What a row of a ducts file says: a size, and which rates are made for it.
#[derive(Clone, Copy)]
pub struct DuctRow {
    /// The name of the size.
    pub size: Name,
    /// The hydraulic diameter, mm.
    pub diameter: u64,
    /// The roughness of the wall, micrometres.
    pub rough: u64,
    /// The airflow of the first rate, of which the others are multiples, l/s.
    pub flow: u64,
    /// How many rates are made.
    pub rows: u64,
}

/// What the row at hand says; none where a field isn't of its form or lies out of its bound.
pub fn duct_row(rows: &Rows<'_>) -> Option<DuctRow>
    ensures value { result ≡ duct_of_row rows.now.row }
    ensures bounds { IfSome result IsRowInBounds }
{
    Some(DuctRow {
        size: rows.name(0)?,
        diameter: rows.number(1, MIN_DIAMETER, MAX_DIAMETER)?,
        rough: rows.number(2, 0, MAX_ROUGH)?,
        flow: rows.number(3, MIN_FLOW, MAX_FLOW)?,
        rows: rows.number(4, MIN_ROWS, MAX_ROWS as u64)?,
    })
}
