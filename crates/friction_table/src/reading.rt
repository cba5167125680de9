//! Reading a friction file.
ghost use Rattle.std.specs.Prelude.{◌≡◌, ◌<◌, length, All, IfOk};
ghost use Rattle.duct_units.specs.Rules.{Gives};
ghost use Rattle.friction_table.specs.Reading.{friction_of};

use crate::friction::Friction;
use crate::limits::COLUMNS;
use csv_fields::Rows;
use duct_units::ReadError;
use size_catalogue::Sizes;
use std::alloc::Global;

/// The first row of a friction file.
const HEADER: [&str; COLUMNS] = ["size", "flow", "rate"];

/// The friction of a catalogue's sizes, from a file's bytes, or its first refusal (docs/FORMATS.md, "Friction"). No row
/// behind the refused one is read.
pub fn read_friction(alloc: Global, bytes: &[u8], sizes: &Sizes) -> Result<Friction, ReadError>
    ensures value { Gives result (friction_of sizes.now bytes.now) }
    ensures tables { IfOk result (λ friction. length friction ≡ length sizes.now.sizes) }
    ensures rows { IfOk result (λ friction. All (λ rows. 0 < length rows) friction) }
{
    let mut rows = Rows::open(alloc, bytes, &HEADER)?;
    let mut friction = Friction::new(alloc, sizes.len())?;
    while rows.advance()? {
        friction = friction.with_row(sizes, &rows)?;
    }
    match friction.missing() {
        Some(fault) => Err(ReadError::Refused(fault)),
        None => Ok(friction),
    }
}
