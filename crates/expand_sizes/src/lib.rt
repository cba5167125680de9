//! The sizes of the best design: from the fan outwards, of each section the first size with the least price.
//!
//! Budgets and losses are in dPa, prices and costs in cents. Sections, sizes and fans count from 0, in file order.
//! A section has of its side's budget what the sections between it and the fan leave.
#![tactic(auto)]

mod descent;
pub mod laws;
mod sizes;

pub use descent::expand;
