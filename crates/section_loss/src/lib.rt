//! What a section loses and costs beside its neighbour.
//!
//! Airflow is in l/s, length in mm, area in mm2, density in g/m3, coefficients and ratios in thousandths, losses in
//! dPa, money in cents. Each part of a loss is rounded up by itself (docs/RULES.md, "Section loss").
#![tactic(auto)]

mod facts;
mod fitting;
mod laws;
mod limits;
mod losses;
mod prices;

pub use facts::SectionFacts;
pub use fitting::{fitting_loss, ratio};
pub use laws::{
    a_coefficient_loses_by_velocity, a_worked_junction, a_worked_price, limits_as_numbers,
    losses_of_a_small_network,
};
pub use limits::{MAX_FITTING_LOSS, MAX_OWN_LOSS, VELOCITY_PRESSURE_UNITS};
pub use losses::{junction_loss, loss, own_loss, together};
pub use prices::{is_stepped, price};
