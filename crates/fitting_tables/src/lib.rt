//! The junction coefficients of fittings: a table for each fitting, by area ratio and flow ratio.
//!
//! Ratios and coefficients are in thousandths. Tables count from 0, in the order in which they first appear. Between
//! breakpoints a coefficient is an exact fraction, rounded up once (docs/RULES.md, "Junction").
#![tactic(auto)]

mod axis;
mod coefficient;
mod fittings;
mod grid;
mod laws;
mod limits;
mod reading;
mod row;

pub use axis::Span;
pub use fittings::Fittings;
pub use laws::{a_worked_coefficient, limits_as_numbers, on_a_breakpoint_pair};
pub use limits::{COLUMNS, MAX_BREAKPOINTS, MAX_RATIO, MAX_TABLES, MAX_VALUE, MIN_VALUE};
pub use reading::read_fittings;
pub use row::{Cell, FittingRow};
