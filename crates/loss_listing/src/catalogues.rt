//! What the four files of a project's catalogues say.
ghost use Rattle.std.specs.Prelude.{◌≡◌, length};

use duct_units::ReadError;
use fan_points::{Fans, read_fans};
use fitting_tables::{Fittings, read_fittings};
use friction_table::{Friction, read_friction};
use size_catalogue::{Sizes, read_sizes};
use std::alloc::Global;

/// Sizes, their friction, fittings and fans.
#[derive(Drop)]
pub struct Catalogues {
    pub sizes: Sizes,
    pub friction: Friction,
    pub fittings: Fittings,
    pub fans: Fans,
    // each size has a table of rates
    ghost tables: { length friction ≡ length sizes.sizes },
}

/// The catalogues of the bytes of four files.
pub fn read_catalogues(
    alloc: Global,
    sizes: &[u8],
    friction: &[u8],
    fittings: &[u8],
    fans: &[u8],
) -> Result<Catalogues, ReadError> {
    let sizes = read_sizes(alloc, sizes)?;
    let friction = read_friction(alloc, friction, &sizes)?;
    let fittings = read_fittings(alloc, fittings)?;
    let fans = read_fans(alloc, fans)?;
    Ok(Catalogues {
        sizes,
        friction,
        fittings,
        fans,
    })
}
