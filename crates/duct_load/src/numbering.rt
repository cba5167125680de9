//! Where a made section stands: its side, its place in the side, and its neighbour.
ghost use Rattle.std.specs.Prelude.{◌≡◌, ◌<◌};
ghost use Rattle.duct_definitions.specs.declared.limits.TheConstants.{MAX_SECTIONS};
ghost use Rattle.duct_load.specs.Made.{is_return, side_of, place_of, section_at, neighbour_of, is_at_fan};

use duct_units::Side;

/// The side of section `i`: of each three sections the last is of the return side.
pub(crate) fn side_of(i: u32) -> Side
    ensures { result ≡ side_of i }
{
    if is_return(i) {
        Side::Return
    } else {
        Side::Supply
    }
}

/// The section towards the fan; None for the first section of a side.
pub(crate) fn neighbour_of(i: u32) -> Option<u32>
    requires { i < MAX_SECTIONS }
    ensures { result ≡ neighbour_of i }
{
    match place_of(i) {
        0 => None,
        place => Some(section_at(side_of(i), (place - 1) / 2)),
    }
}

/// Whether section `i` is the first of its side.
pub(crate) fn is_at_fan(i: u32) -> bool
    requires { i < MAX_SECTIONS }
    ensures { result ≡ is_at_fan i }
{
    neighbour_of(i).is_none()
}

fn is_return(i: u32) -> bool
    ensures { result ≡ is_return i }
{
    i % 3 == 2
}

// How many sections of its side stand before section `i`.
fn place_of(i: u32) -> u32
    ensures { result ≡ place_of i }
{
    if is_return(i) { i / 3 } else { i - i / 3 }
}

// The section of a side in a place.
fn section_at(side: Side, place: u32) -> u32
    requires { place < MAX_SECTIONS }
    ensures { result ≡ section_at side place }
{
    match side {
        Side::Supply => place + place / 2,
        Side::Return => 3 * place + 2,
    }
}
