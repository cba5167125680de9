//! The tree of sections towards the fan: of each section its neighbour, its side and its children, and all leaves
//! and roots.
//!
//! Sections count from 0, in file order. A neighbour stands earlier and is of the same side (docs/RULES.md, "Tree").
//! Airflows are in l/s (docs/RULES.md, "Airflow and leakage").
#![tactic(auto)]

mod carried;
mod flows;
pub mod laws;
mod lists;
mod rules;
mod tree;

pub use flows::Flows;
pub use tree::AirTree;
