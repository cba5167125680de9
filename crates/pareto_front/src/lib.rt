//! Exact Pareto fronts: what each budget of pressure buys at the least cost.
//!
//! Needs, losses and budgets are in dPa, costs and prices in cents. Each point of a front needs more
//! and costs less than the one before it.
#![tactic(auto)]

mod cost_falls;
mod few_points;
mod front;
mod front_sum;
mod laid_points;
pub mod laws;
mod least_prices;
mod merge;
mod parts;
mod point;
mod sums;
mod sweep;

pub use front::Front;
pub use front_sum::FrontSum;
pub use laid_points::LaidPoints;
pub use point::{COST_LIMIT, Point};
