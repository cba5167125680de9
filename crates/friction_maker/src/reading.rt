//! Making the rates that a ducts file asks for.
ghost use Rattle.std.specs.Prelude.{◌≤◌, ◌<◌, IfOk, length as count};
ghost use Rattle.duct_units.specs.Rules.{Gives};
ghost use Rattle.duct_definitions.specs.declared.duct.TheConstants.{MIN_DENSITY, MAX_DENSITY};
ghost use Rattle.friction_maker.specs.declared.limits.TheConstants.{MIN_VISCOSITY, MAX_VISCOSITY};
ghost use Rattle.friction_maker.specs.Rate.{IsAir};
ghost use Rattle.friction_maker.specs.Making.{tables_of, air_of, AreMade};
ghost use Rattle.friction_maker.specs.MadeRows.{made_of, AreInOrder, AreRowsOf, AreOfSizes};

use crate::air::Air;
use crate::limits::COLUMNS;
use crate::making::MadeRow;
use crate::tables::Tables;
use csv_fields::Rows;
use duct_units::{List, ReadError};
use size_catalogue::Sizes;
use std::alloc::Global;

/// The first row of a ducts file.
const HEADER: [&str; COLUMNS] = ["size", "diameter", "rough", "flow", "rows"];

/// The friction rates that a ducts file asks for, in air of a density in g/m3 and a viscosity in nPa s, by size number
/// and then by airflow; or the file's first refusal (docs/FORMATS.md, "Ducts"). No row behind the refused one is read.
pub fn make_friction(
    alloc: Global,
    sizes: &Sizes,
    bytes: &[u8],
    density: u64,
    viscosity: u64,
) -> Result<List<MadeRow>, ReadError>
    requires density { (MIN_DENSITY ≤ density) × (density ≤ MAX_DENSITY) }
    requires viscosity { (MIN_VISCOSITY ≤ viscosity) × (viscosity ≤ MAX_VISCOSITY) }
    ensures value { Gives result (made_of sizes.now (air_of density viscosity) bytes.now) }
    ensures order { IfOk result AreInOrder }
    ensures sizes { IfOk result (AreOfSizes sizes.now) }
    ensures rates { IfOk result (AreRowsOf sizes.now (air_of density viscosity)) }
{
    let air = Air { density, viscosity };
    let tables = read_tables(alloc, sizes, air, bytes)?;
    Ok(tables.rows(alloc)?)
}

fn read_tables(alloc: Global, sizes: &Sizes, air: Air, bytes: &[u8]) -> Result<Tables, ReadError>
    requires { IsAir air }
    ensures value { Gives result (tables_of sizes.now air bytes.now) }
    ensures made { IfOk result (AreMade sizes.now air) }
    ensures few { IfOk result (λ tables. count tables < u32.MAX) }
{
    let mut rows = Rows::open(alloc, bytes, &HEADER)?;
    let mut tables = Tables::new(alloc, sizes.len())?;
    while rows.advance()? {
        tables = tables.with_row(alloc, sizes, air, &rows)?;
    }
    match tables.missing() {
        Some(fault) => Err(ReadError::Refused(fault)),
        None => Ok(tables),
    }
}
