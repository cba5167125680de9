//! A pool of tasks for several workers: each has a hand, with a deque of its share of the tasks, and steals from the
//! deques of the others.
//!
//! Tasks are numbers. Between any two steps each deque and what was taken from it have every number as often as it was
//! pushed (specs/Rule.antt).
#![tactic(auto)]

mod dealing;
mod deque;
mod gathering;
mod hand;
pub mod laws;
mod parting;
mod rule;
mod steps;
mod view;

pub use dealing::deal;
pub use gathering::{Gathered, gather};
pub use hand::Hand;

#[cfg(test)]
mod tests;
