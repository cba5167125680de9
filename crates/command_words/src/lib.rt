//! The arguments of the command line, which docs/FORMATS.md calls words: what they ask for, which files they name, and
//! the line that says of a file why it is refused.
//!
//! Words are read by their places and by the options among them. Files are taken in the order of the words.
#![tactic(auto)]

mod arguments;
mod commands;
pub mod laws;
mod lines;
mod words;
mod workers;

pub use arguments::{Arguments, OptionName};
pub use commands::{
    Command, DesignWords, FileKind, FileWord, FrictionWords, TakeoffWords, VerifyWords,
};
pub use lines::{fault_text, refusal_text, words_text};
pub use words::Asked;
pub use workers::{DEFAULT_WORKERS, MAX_WORKERS};
