//! The printed design, both ways, and the text where no design meets the rules.
//!
//! Pressures and losses are in dPa, money in cents. The lines and their order: docs/FORMATS.md, "What is written".
#![tactic(auto)]

mod fields;
pub mod laws;
mod lines;
mod listing;
mod printing;
mod reading;
mod words;

pub use printing::{print, print_none};
pub use reading::read;
pub use words::MAX_NUMBER;

#[cfg(test)]
mod tests;
