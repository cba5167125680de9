//! The statuses that the program ends with (docs/FORMATS.md, "Statuses").

/// A design was found, or a file was made.
pub const FOUND: u8 = 0;

/// The bytes of a file are refused.
pub const REFUSED: u8 = 1;

/// The words are none of the forms.
pub const REFUSED_WORDS: u8 = 2;

/// No design meets the rules.
pub const NONE_FOUND: u8 = 3;

/// A file was not read.
pub const READ_FAULT: u8 = 4;

/// The text was not written whole.
pub const WRITE_FAULT: u8 = 5;

/// Memory ran out.
pub const OUT_OF_MEMORY: u8 = 6;

/// The runtime gave the program no words.
pub const NO_WORDS: u8 = 7;
