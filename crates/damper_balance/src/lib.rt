//! Heads and dampers of a design: what each side has of the fans' pressures, and what each section throttles so that
//! every path takes its head.
//!
//! Losses and pressures are in dPa. Sections count from 0, in file order (docs/RULES.md, "Heads and dampers").
#![tactic(auto)]

mod dampers;
pub mod laws;
mod passes;

pub use dampers::{Dampers, balance};
pub use passes::{Heads, add_along_ways, greatest, throttle};
