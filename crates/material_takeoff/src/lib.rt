//! What a printed design takes of each size: how many sections, and their length and price together.
//!
//! Lengths are in mm, money in cents. The sizes stand in order of first use, and a refusal counts sections from 1.
#![tactic(auto)]

mod agreement;
mod counting;
pub mod laws;
mod printing;
mod record;
mod taking;

pub use printing::{print_no_cost, print_takeoff};
pub use record::{SizeUse, TakeOff, TakeOffError};
pub use taking::takeoff;

#[cfg(test)]
mod tests;
