//! How many workers condense a tree.

/// The most workers.
pub const MAX_WORKERS: u32 = 32;

/// How many workers condense where the words name none.
pub const DEFAULT_WORKERS: u32 = 4;
