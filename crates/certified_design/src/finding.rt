//! What is found of a certificate, and of a design beside it.

/// Whether a certificate is sound and a design beside it costs its total; else the first of this that does not hold.
#[derive(Clone, Copy, Debug, PartialEq, Eq)]
pub enum Finding {
    /// The certificate is sound, and so is the design, where there is one: no design costs less.
    Yes,
    /// The first section, from 0 in file order, that is not sound.
    Section(u32),
    /// Every section is sound, but the total is not.
    Total,
    /// The certificate is sound, but the design does not meet the rules, is told otherwise than it is, or does not cost
    /// the total.
    Design,
}
