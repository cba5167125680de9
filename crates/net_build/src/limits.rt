//! The most that a rule counts.

/// The most pairs of sizes that one rule is asked about in a section: 24 sizes beside 24 sizes.
pub const MAX_SECTION_ASKED: u64 = 576;

/// The most pairs of sizes that one rule is asked about in a project: those of 500 sections.
pub const MAX_ASKED: u64 = 288_000;
