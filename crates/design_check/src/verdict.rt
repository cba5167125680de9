//! What a check finds.

/// The first difference between a text and the design that it names. Numbers are those of sections, from 0.
#[derive(Clone, Copy, Debug, PartialEq, Eq)]
pub enum Verdict {
    /// The text of a design that meets the rules.
    Yes,
    /// The project's name, the number of sections, or a section's name.
    Name,
    /// The section hasn't the listed size, or its pair with its neighbour's listed size isn't there.
    Pair(u32),
    /// The section's loss or price.
    Loss(u32),
    /// A fan that isn't in its list, its pressure or its cost.
    Fan,
    /// The fans don't cover the worst losses, or a worst loss or a head differs.
    Head,
    /// The section's damper.
    Damper(u32),
    /// The whole cost.
    Cost,
}
