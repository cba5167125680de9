//! A finished design against its network: whether the text is that of a design which meets the rules, or else the
//! first difference.
//!
//! Pressures and losses are in dPa, money in cents (docs/FORMATS.md, "Verdict").
#![tactic(auto)]

mod cost;
mod dampers;
mod differences;
mod fans;
mod names;
mod pairs;
mod verdict;

pub use differences::check;
pub use verdict::Verdict;
