//! The document of a file.
ghost use Rattle.std.specs.Prelude.{◌≡◌, IfOk, Some, None};
ghost use Rattle.toml.specs.View.{table_view};
ghost use Rattle.file_definitions.specs.Document.{document_of};

use std::alloc::Global;
use thiserror::Error;
use toml::Table;

/// Why bytes gave no document.
#[derive(Debug, Drop, Error)]
pub enum DocumentError {
    /// The bytes are not a TOML document in UTF-8.
    #[error("not a TOML document")]
    Text,
    /// Memory ran out.
    #[error("out of memory")]
    NoMemory,
}

/// The document that the bytes are: TOML 1.1 in UTF-8, integers of 64 bits, arrays and tables at most 80 deep.
/// A byte order mark before it is skipped.
pub fn read_document(alloc: Global, bytes: &[u8]) -> Result<Table, DocumentError>
    ensures value { IfOk result (λ table. document_of bytes.now ≡ Some (table_view table)) }
    ensures refused { result ≡ Err DocumentError.Text → document_of bytes.now ≡ None }
{
    let text = match std::str::from_utf8(bytes) {
        Ok(text) => text,
        Err(_) => return Err(DocumentError::Text),
    };
    match toml::table_from_str(alloc, text) {
        Ok(table) => Ok(table),
        Err(e) => {
            if e.is_memory() {
                Err(DocumentError::NoMemory)
            } else {
                Err(DocumentError::Text)
            }
        }
    }
}
