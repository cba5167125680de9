//! What a file says before any rule of its own: the document of a TOML file with what stands at its keys, and the
//! rows of a CSV file with the rules over them.
//!
//! Definitions alone, which the readers' contracts cite. Rows count from 1, fields and items from 0.
#![tactic(auto)]
