//! What a network, a design, the best design and its printed text are: the definitions that every contract above
//! cites, with the plain data that they speak of.
//!
//! Pressures and losses are in dPa, money in cents. Sections, sizes and fans count from 0, in file order.
//! The definitions in words, with examples: docs/RULES.md.
#![tactic(auto)]

mod airflow;
mod design;
mod duct;
pub mod laws;
mod limits;
mod listed;

pub use airflow::{MAX_FLOW, MAX_LEAK, THOUSANDTHS};
pub use design::{Design, NetFan, Pair};
pub use duct::{MAX_DENSITY, MAX_DEVICE, MAX_LENGTH, MAX_LOCAL, MIN_DENSITY};
pub use limits::{
    MAX_FAN_COST, MAX_FANS, MAX_LOSS, MAX_PRESSURE, MAX_PRICE, MAX_SECTIONS, MAX_SIZES,
};
pub use listed::{Listed, ListedFan, ListedSection, RuleCount};
