//! The bounds of what is known of a section before its size is chosen, and of the air in it.

/// The least density of the air, g/m3.
pub const MIN_DENSITY: u64 = 1;

/// The greatest density of the air, g/m3.
pub const MAX_DENSITY: u64 = 2_000;

/// The greatest length of a section, mm.
pub const MAX_LENGTH: u64 = 1_000_000;

/// The greatest local coefficient of a section, thousandths.
pub const MAX_LOCAL: u64 = 1_000_000;

/// The greatest loss of a device, dPa.
pub const MAX_DEVICE: u64 = 20_000;
