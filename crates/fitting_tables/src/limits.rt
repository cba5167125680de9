//! The limits of junction coefficients, and the columns of their file.

/// The number of columns of a fittings file.
pub const COLUMNS: usize = 4;

/// The most tables.
pub const MAX_TABLES: usize = 32;

/// The most area ratios of a table, and the most flow ratios.
pub const MAX_BREAKPOINTS: usize = 20;

/// The greatest ratio of a breakpoint, thousandths.
pub const MAX_RATIO: u64 = 1_000_000;

/// The least coefficient, thousandths.
pub const MIN_VALUE: i64 = -1_000_000;

/// The greatest coefficient, thousandths.
pub const MAX_VALUE: i64 = 1_000_000;
