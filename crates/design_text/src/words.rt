//! The numbers of a design text.
ghost use Rattle.std.specs.Prelude.{◌≡◌, option_map};
ghost use Rattle.design_text.specs.Fields.{number_before};

use line_words::number_before as number_of_most;

/// The greatest number of a design text, which has 18 digits.
pub const MAX_NUMBER: u64 = 999_999_999_999_999_999;

/// The number of at most 18 digits before the first byte `end`.
pub(crate) fn number_before(bytes: &[u8], end: u8) -> Option<(u64, &[u8])>
    ensures { option_map (λ found. (found.0, found.1.now)) result ≡ number_before end bytes.now }
{
    number_of_most(bytes, end, MAX_NUMBER)
}
