//! Certificates: a text that proves to a third party that no design of a network costs less.
//!
//! A certificate states a total and of each section the least that each budget buys for it and all beyond it. Each
//! front is tested against those of the children and the total against the fans and the fronts at the fan, without
//! finding a design. Needs, losses and budgets are in dPa, costs and prices in cents. Sections, sizes and fans count
//! from 0, in file order.
#![tactic(auto)]

mod certificate;
mod counting;
mod judgement;
mod judging;
pub mod laws;
mod points;
mod reading;
mod sections;
mod stated;
mod total;
mod words;
mod writing;

pub use certificate::Certificate;
pub use counting::front_count;
pub use judgement::Judgement;
pub use judging::verify;
pub use reading::read_certificate;
pub use writing::write;
