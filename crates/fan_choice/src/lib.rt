//! The fan, or the fan of each side, that gives the least cost together with what is bought on the two sides of the
//! network.
//!
//! Needs, budgets and pressures are in dPa, costs and prices in cents. Fans count from 0, in file order.
//! With one fan the two sides share its pressure: the return side has what the supply budget leaves of it. With a
//! return fan each side has the pressure of its own fan.
#![tactic(auto)]

mod cheaper;
mod choice;
mod choosing;
mod own_fans;
mod sharing;

pub use choice::Choice;
pub use choosing::choose;
