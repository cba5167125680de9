//! The bounds of airflows and leaks.

/// The greatest airflow of a section, l/s.
pub const MAX_FLOW: u64 = 200_000;

/// The greatest leak of a section, in thousandths of the air that is to pass it.
pub const MAX_LEAK: u64 = 200;

/// Thousandths in a whole.
pub const THOUSANDTHS: u64 = 1_000;
