//! A made network of any size to try the program with, and the summary that is printed of it.
//!
//! Pressures and losses are in dPa, money in cents. Sections, sizes and fans count from 0; the numbers in their names
//! count from 1 (docs/FORMATS.md, "A made network").
#![tactic(auto)]

pub mod laws;
mod making;
mod numbering;
mod pairs;
mod summary;

pub use making::make_network;
pub use summary::print_summary;
