//! The limits of rules.

/// The most rules that are handed in.
pub const MAX_RULES: usize = 16;

/// A litre in mm3: an airflow in l/s by so many, over an area in mm2, is a velocity in mm/s.
pub const VELOCITY_UNITS: u64 = 1_000_000;
