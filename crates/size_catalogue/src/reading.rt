//! Reading a sizes file.
ghost use Rattle.std.specs.Prelude.{◌≡◌};
ghost use Rattle.duct_units.specs.Rules.{Gives};
ghost use Rattle.size_catalogue.specs.Reading.{sizes_of};

use crate::limits::COLUMNS;
use crate::sizes::Sizes;
use csv_fields::Rows;
use duct_units::ReadError;
use std::alloc::Global;

/// The first row of a sizes file.
const HEADER: [&str; COLUMNS] = ["list", "size", "area", "height", "metre", "join", "step"];

/// The sizes of a file's bytes, or its first refusal (docs/FORMATS.md, "Sizes"). No row behind the refused one is read.
pub fn read_sizes(alloc: Global, bytes: &[u8]) -> Result<Sizes, ReadError>
    ensures { Gives result (sizes_of bytes.now) }
{
    let mut rows = Rows::open(alloc, bytes, &HEADER)?;
    let mut sizes = Sizes::new(alloc);
    while rows.advance()? {
        sizes = sizes.with_row(alloc, &rows)?;
    }
    Ok(sizes)
}
