//! The limit of edits.

/// The most edits that one session applies.
pub const MAX_EDITS: u32 = 1_000;
