//! The limits of a network.

/// The most sections of a network.
pub const MAX_SECTIONS: usize = 500;

/// The most sizes of a section.
pub const MAX_SIZES: usize = 24;

/// The most fans on offer.
pub const MAX_FANS: usize = 64;

/// The greatest pressure of a fan, dPa.
pub const MAX_PRESSURE: u64 = 20_000;

/// The greatest cost of a fan, cents.
pub const MAX_FAN_COST: u64 = 100_000_000_000_000;

/// The greatest loss of a section, dPa.
pub const MAX_LOSS: u64 = 1_000_000_000_000_000;

/// The greatest price of a section, cents.
pub const MAX_PRICE: u64 = 1_000_000_000_000;
