//! The certificate of a network that a program which finds designs writes: of each section what every budget buys at
//! the least cost, and what the best design costs.
//!
//! Needs and budgets are in dPa, costs and prices in cents. Sections, sizes and fans count from 0, in file order.
#![tactic(auto)]

mod certifying;
mod collecting;
pub mod laws;

pub use certifying::certify;
