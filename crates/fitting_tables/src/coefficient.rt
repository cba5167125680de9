//! The coefficient between breakpoints.
ghost use Rattle.std.specs.Prelude.{◌≡◌, ◌*◌, ◌<◌, ◌≤◌, ◌≤ℤ◌, ◌*ℤ◌, ◌+ℤ◌, pos, length};
ghost use Rattle.fitting_tables.specs.Span.{IsSpan};
ghost use Rattle.fitting_tables.specs.Coefficient.{IsBetween, between_corners, numerator, term, row_terms, IsWeighed};

use crate::axis::Span;
use crate::grid::Grid;
use crate::limits::{MAX_RATIO, MAX_VALUE, MIN_VALUE};
use duct_units::ceil_div;

/// The values at the four corners, each times its two weights, added and divided by both widths; rounded up once.
pub fn weighted(grid: &Grid, area: Span, flow: Span) -> i64
    requires area { IsSpan area }
    requires flow { IsSpan flow }
    ensures value { result ≡ between_corners grid.now area flow }
    ensures ceiling { IsBetween grid.now area flow result }
    ensures bounds { (MIN_VALUE ≤ℤ result) × (result ≤ℤ MAX_VALUE) }
{
    let lower = row_terms(grid, area.lower, area.lower_weight, flow);
    let upper = row_terms(grid, area.upper, area.upper_weight, flow);
    ceil_div(lower + upper, i128::from(area.width * flow.width)) as i64
}

// The two corners at an area ratio.
fn row_terms(grid: &Grid, area: u64, weight: u64, flow: Span) -> i128
    requires flow { IsSpan flow }
    requires weight { weight ≤ MAX_RATIO }
    ensures value { result ≡ row_terms grid.now area weight flow }
    ensures bounds { IsWeighed (weight * flow.width) result }
{
    term(grid, area, flow.lower, weight * flow.lower_weight)
        + term(grid, area, flow.upper, weight * flow.upper_weight)
}

// The value at a corner, times its weight.
fn term(grid: &Grid, area: u64, flow: u64, weight: u64) -> i128
    requires { weight ≤ MAX_RATIO * MAX_RATIO }
    ensures value { result ≡ term grid.now area flow weight }
    ensures bounds { IsWeighed weight result }
{
    let value = grid.value(area, flow).unwrap_or(0);
    i128::from(value) * i128::from(weight)
}
