//! The core of the schedule in which the sections of a tree are condensed: each once, and after its children.
//!
//! Sections count from 0. A leaf is claimed by an event, another section where its last child is done
//! (docs/SCHEDULE.md).
#![tactic(auto)]

mod events;
pub mod laws;
mod schedule;

pub use events::{Event, Refused};
pub use schedule::Core;
