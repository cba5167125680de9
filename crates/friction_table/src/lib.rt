//! The friction rates of a catalogue's sizes: what a stretch of duct loses at an airflow.
//!
//! Airflow is in l/s, length in mm, the rate in mPa/m, the loss in dPa. Sizes count from 0, as in the catalogue. The
//! rate is an exact fraction and the loss is rounded up once (docs/RULES.md, "Friction").
#![tactic(auto)]

mod friction;
mod laws;
mod limits;
mod reading;
mod row;
mod table;

pub use friction::Friction;
pub use laws::{a_worked_loss, limits_as_numbers};
pub use limits::{
    COLUMNS, MAX_FRICTION_LOSS, MAX_RATE, MAX_ROWS, MILLIMETRES_PER_METRE,
    MILLIPASCALS_PER_DECIPASCAL, MIN_FLOW,
};
pub use reading::read_friction;
pub use row::{FlowRate, FrictionRow};
pub use table::Fraction;
