//! The limits of a friction table, the columns of its file, and its units.

/// The number of columns of a friction file.
pub const COLUMNS: usize = 3;

/// The most rows of a size.
pub const MAX_ROWS: usize = 64;

/// The least airflow, l/s.
pub const MIN_FLOW: u64 = 1;

/// The greatest rate, mPa/m.
pub const MAX_RATE: u64 = 1_000_000;

/// A length in mm by a rate in mPa/m, over so many, is in mPa.
pub const MILLIMETRES_PER_METRE: u64 = 1_000;

/// A pressure in mPa, over so many, is in dPa.
pub const MILLIPASCALS_PER_DECIPASCAL: u64 = 100;

/// The greatest loss: that of the greatest length at the greatest rate, dPa.
pub const MAX_FRICTION_LOSS: u64 = 10_000_000;
