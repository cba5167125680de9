//! The limits of a project file. Those of airflows, leaks, lengths and losses stand in `duct_definitions`, those
//! of energy in `fan_points`.

/// The greatest limit of the velocity, mm/s.
pub const MAX_VELOCITY: u64 = 1_000_000;

/// The greatest limit of the height, mm.
pub const MAX_HEIGHT: u64 = 1_000_000;
