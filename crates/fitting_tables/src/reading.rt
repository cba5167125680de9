//! Reading a fittings file.
ghost use Rattle.std.specs.Prelude.{◌≡◌, IfOk};
ghost use Rattle.duct_units.specs.Rules.{Gives};
ghost use Rattle.fitting_tables.specs.Fittings.{AreFull};
ghost use Rattle.fitting_tables.specs.Reading.{fittings_of};

use crate::fittings::Fittings;
use crate::limits::COLUMNS;
use csv_fields::Rows;
use duct_units::ReadError;
use std::alloc::Global;

/// The first row of a fittings file.
const HEADER: [&str; COLUMNS] = ["table", "area", "flow", "value"];

/// The fittings of a file's bytes, or its first refusal (docs/FORMATS.md, "Fittings"). No row behind the refused one is
/// read.
pub fn read_fittings(alloc: Global, bytes: &[u8]) -> Result<Fittings, ReadError>
    ensures value { Gives result (fittings_of bytes.now) }
    ensures full { IfOk result (λ fittings. AreFull fittings.grids) }
{
    let mut rows = Rows::open(alloc, bytes, &HEADER)?;
    let mut fittings = Fittings::new(alloc);
    while rows.advance()? {
        fittings = fittings.with_row(alloc, &rows)?;
    }
    match fittings.hole() {
        Some(fault) => Err(ReadError::Refused(fault)),
        None => Ok(fittings),
    }
}
