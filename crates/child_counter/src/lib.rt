//! Counters of a tree's sections: which pass may condense which section when, over words and slots that threads share.
//!
//! Sections count from 0. Each section has a word and a slot, and the roots have a word (docs/SCHEDULE.md).
#![tactic(auto)]

mod beginning;
mod closed;
mod counters;
mod emptying;
mod ending;
mod events;
mod pass;
mod rule;
mod seats;
mod slots;
mod start;
mod table;
mod threads;
mod view;

pub use closed::Closed;
pub use counters::Counters;
pub use pass::{Pass, Turn};
pub use threads::counters_are_shared;
