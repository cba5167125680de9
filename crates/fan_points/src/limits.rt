//! The limits of fan points and of the terms of energy, and the columns of their file.

/// The number of columns of a fans file.
pub const COLUMNS: usize = 6;

/// The most fans.
pub const MAX_POINTS: usize = 64;

/// The least pressure of a fan, dPa.
pub const MIN_FAN_PRESSURE: u64 = 1;

/// The greatest pressure of a fan, dPa.
pub const MAX_FAN_PRESSURE: u64 = 20_000;

/// The greatest airflow of a fan, l/s.
pub const MAX_FAN_FLOW: u64 = 100_000_000;

/// The greatest price of a fan, cents.
pub const MAX_FAN_PRICE: u64 = 10_000_000_000;

/// The greatest power of a fan, W.
pub const MAX_WATTS: u64 = 1_000_000;

/// The most hours of a year.
pub const MAX_HOURS: u64 = 8_784;

/// The greatest tariff, hundredths of a cent per kWh.
pub const MAX_TARIFF: u64 = 1_000_000;

/// The greatest present worth of a yearly cost, thousandths.
pub const MAX_WORTH: u64 = 1_000_000;

/// W by hours by hundredths of a cent per kWh by thousandths, over so many, is in cents: 1,000 by 100 by 1,000.
pub const ENERGY_UNITS: u64 = 100_000_000;

/// The greatest cost of energy: that of the greatest power at the greatest terms, cents.
pub const MAX_ENERGY_COST: u64 = 87_840_000_000_000;
