//! A cell of a table, and the row of a file that says it.
ghost use Rattle.std.specs.Prelude.{◌≡◌, IfSome};
ghost use Rattle.fitting_tables.specs.FittingRow.{row_of_fields};
ghost use Rattle.fitting_tables.specs.Cells.{IsCell};

use crate::limits::{MAX_RATIO, MAX_VALUE, MIN_VALUE};
use csv_fields::Rows;
use duct_units::Name;

/// The junction coefficient at a breakpoint of each ratio.
#[derive(Clone, Copy)]
pub struct Cell {
    /// The area ratio, thousandths.
    pub area: u64,
    /// The flow ratio, thousandths.
    pub flow: u64,
    /// The coefficient, thousandths.
    pub value: i64,
}

/// What a row of a fittings file says.
#[derive(Clone, Copy)]
pub struct FittingRow {
    /// The name of the table.
    pub table: Name,
    /// A cell of it.
    pub cell: Cell,
}

/// What the row at hand says; none where a field isn't of its form or lies out of its bound.
pub fn fitting_row(rows: &Rows<'_>) -> Option<FittingRow>
    ensures value { result ≡ row_of_fields rows.now.row }
    ensures bounds { IfSome result (λ row. IsCell row.cell) }
{
    let table = rows.name(0)?;
    let area = rows.number(1, 0, MAX_RATIO)?;
    let flow = rows.number(2, 0, MAX_RATIO)?;
    let value = rows.integer(3, MIN_VALUE, MAX_VALUE)?;
    Some(FittingRow {
        table,
        cell: Cell { area, flow, value },
    })
}
