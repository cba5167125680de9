//! A tree condensed by several workers: the exact fronts of every section and of each side, in whatever order the
//! workers come to them.
//!
//! Sections and workers count from 0. Needs and budgets are in dPa, costs in cents.
#![tactic(auto)]

mod climbing;
mod condensing;
mod contracting;
mod crew;
mod dealing;
mod door;
mod fronted;
mod joining;
mod worker;

pub use contract_join::side_of;
pub use contracting::contract_all;
pub use fronted::Fronted;
pub use joining::outcome_of;
