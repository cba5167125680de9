//! The unit of losses, and what no loss passes.

/// A density in g/m3 by the square of an airflow in l/s, over the square of an area in mm2, times so many, is a
/// thousandth of the velocity pressure in dPa.
pub const VELOCITY_PRESSURE_UNITS: u64 = 5;

/// The greatest loss of a fitting, and of what it gains: that of the greatest coefficient at the greatest airflow of
/// the densest air through the least area, dPa.
pub const MAX_FITTING_LOSS: u64 = 400_000_000_000_000;

/// The greatest loss of a section without its junction: a friction of 10,000,000, a local loss and a device, dPa.
pub const MAX_OWN_LOSS: u64 = 400_000_010_020_000;
