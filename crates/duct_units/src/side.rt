//! The side of the fan on which a section stands.

/// Supply air leaves the fan, return air comes back to it.
#[derive(Clone, Copy, Debug, PartialEq, Eq)]
pub enum Side {
    Supply,
    Return,
}
