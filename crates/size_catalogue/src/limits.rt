//! The limits of a catalogue, and the columns of its file.

/// The number of columns of a sizes file.
pub const COLUMNS: usize = 7;

/// The most lists of a catalogue.
pub const MAX_LISTS: usize = 16;

/// The most sizes of a list.
pub const MAX_LIST_SIZES: usize = 24;

/// The least area of a size, mm2.
pub const MIN_AREA: u64 = 1_000;

/// The greatest area of a size, mm2.
pub const MAX_AREA: u64 = 100_000_000;

/// The least height of a size, mm.
pub const MIN_HEIGHT: u64 = 1;

/// The greatest height of a size, mm.
pub const MAX_HEIGHT: u64 = 1_000_000;

/// The greatest price of a metre, cents.
pub const MAX_METRE_PRICE: u64 = 100_000_000;

/// The greatest price of a join or a step, cents.
pub const MAX_JOIN_PRICE: u64 = 10_000_000_000;
