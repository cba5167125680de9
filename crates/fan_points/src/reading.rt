//! Reading a fans file.
ghost use Rattle.duct_units.specs.Rules.{Gives};
ghost use Rattle.fan_points.specs.Reading.{fans_of};

use crate::fans::Fans;
use crate::limits::COLUMNS;
use csv_fields::Rows;
use duct_units::ReadError;
use std::alloc::Global;

/// The first row of a fans file.
const HEADER: [&str; COLUMNS] = ["fan", "pressure", "low", "high", "price", "watts"];

/// The fans of a file's bytes, or its first refusal (docs/FORMATS.md, "Fans"). No row behind the refused one is read.
pub fn read_fans(alloc: Global, bytes: &[u8]) -> Result<Fans, ReadError>
    ensures { Gives result (fans_of bytes.now) }
{
    let mut rows = Rows::open(alloc, bytes, &HEADER)?;
    let mut fans = Fans::new(alloc);
    while rows.advance()? {
        fans = fans.with_row(&rows)?;
    }
    Ok(fans)
}
