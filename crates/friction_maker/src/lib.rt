//! Friction rates made from the sizes of ducts, for a catalogue whose maker gives none, and the friction file that
//! they are.
//!
//! Airflow is in l/s, the rate in mPa/m, diameters in mm, roughness in micrometres, density in g/m3, viscosity in
//! nPa s. Sizes count from 0, as in the catalogue (docs/RULES.md, "Made friction rates").
#![tactic(auto)]

mod air;
mod laws;
mod limits;
mod making;
mod rate;
mod reading;
mod row;
mod tables;
mod text;

pub use air::{Air, Duct};
pub use laws::{limits_as_numbers, root_is_least, worked_rates};
pub use limits::{
    COLUMNS, CORRECTED_BELOW, CORRECTION_MORE, CORRECTION_SHARE, FACTOR_SCALE, HUNDREDTHS,
    MAX_DIAMETER, MAX_ROOT, MAX_ROUGH, MAX_VISCOSITY, MIN_DIAMETER, MIN_ROWS, MIN_VISCOSITY,
    RATE_UNITS, REYNOLDS_SHARE, REYNOLDS_UNITS, ROUGH_UNITS,
};
pub use making::MadeRow;
pub use rate::made_rate;
pub use reading::make_friction;
pub use row::DuctRow;
pub use text::rows_text;
