//! Laws of the least price within a budget: what a program may compute it from, and that the sizes taken from the fan
//! outwards by it are the best design. Each law is the contract of a call that has nothing to do.
//!
//! Losses and budgets are in dPa, prices and costs in cents. Sections, sizes and fans count from 0, in file order.
#![tactic(auto)]

mod choosing;
mod least;

pub use choosing::{
    choice_depends_on_budgets_up_to_cap, descent_goes_on, descent_is_best, no_cost_no_design,
    side_adds_its_roots,
};
pub use least::{
    least_bounded, least_depends_on_pairs_beyond, least_is_one, least_never_rises, least_of_section,
};
