//! What the test of a certificate answers.

/// Whether a certificate is sound, and the first thing in it that is not.
#[derive(Clone, Copy, Debug, PartialEq, Eq)]
pub enum Judgement {
    /// Every section and the total are sound: no design costs less than the total.
    Yes,
    /// The first section, from 0 in file order, whose fronts its children's do not bear out.
    Section(u32),
    /// Every section is sound, but some fans and the fronts at the fan cost less than the total.
    Total,
}
