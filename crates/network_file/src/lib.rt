//! The network of a network file, or the first rule of the file that it breaks.
//!
//! Pressures and losses are in dPa, money in cents. Places of refusals count from 1, and 0 is the file as a whole
//! (docs/FORMATS.md, "Network file").
#![tactic(auto)]

mod fans;
mod laws;
mod pairs;
mod reading;
mod sections;
mod sizes;
mod sizes_and_pairs;
mod top;

pub use laws::limits_as_numbers;
pub use pairs::{MAX_PAIRS, PairRow};
pub use reading::read_network;
