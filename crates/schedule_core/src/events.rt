//! What may happen to a section, and why it is refused.

use thiserror::Error;

/// What happens to the section of a number.
#[derive(Clone, Copy, Debug, PartialEq, Eq)]
pub enum Event {
    /// A leaf is taken to be condensed.
    Claim(u32),
    /// A claimed section has been condensed.
    Finish(u32),
}

/// Why an event is refused, in the order in which it is tested.
#[derive(Debug, Drop, Error)]
pub enum Refused {
    #[error("no section has the number")]
    Outside,
    #[error("the claimed section has children")]
    NotLeaf,
    #[error("the leaf is claimed already")]
    Claimed,
    #[error("the finished section isn't claimed")]
    NotClaimed,
    #[error("the section is done already")]
    Done,
}
