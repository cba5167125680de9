//! The fronts of a section: what each budget of pressure buys for the section and all beyond it, at the least cost.
//!
//! Needs, losses and budgets are in dPa, costs and prices in cents. Sections and sizes count from 0.
//! The fronts are exact for budgets up to the network's greatest fan pressure, and no need is above it.
#![tactic(auto)]

mod close;
mod join;
mod kept;
pub mod laws;
mod only_child;
mod outcome;
mod section_fronts;
mod side;

pub use join::Join;
pub use kept::{Kept, adopt};
pub use only_child::beyond_one;
pub use outcome::Outcome;
pub use section_fronts::SectionFronts;
pub use side::side_of;
