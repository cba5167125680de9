//! A network: a tree of sections with the losses and prices of their sizes, and the fans on offer; and what a design
//! of it loses and costs.
//!
//! Pressures and losses are in dPa, money in cents. Sections, sizes and fans count from 0, in file order
//! (docs/RULES.md, "Network").
#![tactic(auto)]

mod designs;
pub mod laws;
mod network;

pub use designs::{cost, loss_at, meets, path_loss, price_at, worst};
pub use duct_definitions::{Design, NetFan, Pair};
pub use network::{Network, NetworkParts, greatest_pressure};
