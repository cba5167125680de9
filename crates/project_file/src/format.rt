//! The formats of a project file.

/// The format of a project file.
#[derive(Clone, Copy)]
pub(crate) enum Format {
    /// No section leaks.
    One,
    /// A section may leak.
    Two,
}
