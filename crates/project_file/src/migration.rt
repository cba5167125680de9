//! A project file in format 2.
ghost use Rattle.std.specs.Prelude.{◌≡◌, Some, None, IfOk, IfErr, OnOk};
ghost use Rattle.toml.specs.View.{table_view};
ghost use Rattle.duct_units.specs.Rules.{Fails, first_broken};
ghost use Rattle.file_definitions.specs.Document.{document_of};
ghost use Rattle.file_definitions.specs.Reading.{GivesAs};
ghost use Rattle.project_file.specs.ProjectFile.{project_rules};
ghost use Rattle.project_file.specs.Raised.{migrating, migrating_bytes};
ghost use Rattle.project_file.specs.Shallow.{AreShallow};

use crate::depth::nests_twice_at_most;
use crate::raising::raised;
use crate::reading::project_in;
use duct_units::{Fault, List, NoMemory, ReadError, Reason};
use std::alloc::Global;
use toml::Table;
use toml_fields::{DocumentError, read_document};

/// The project file in format 2, printed with its keys in order and no line feed behind them: of a file of format 1
/// with `leak` 0 in each section, of one of format 2 the same document. The refusals are those of `read_project`.
pub fn migrate(alloc: Global, bytes: &[u8]) -> Result<List<u8>, ReadError>
    ensures { GivesAs document_of result (migrating_bytes bytes.now) }
{
    match read_document(alloc, bytes) {
        Ok(document) => migrated(alloc, document),
        Err(DocumentError::Text) => Err(ReadError::Refused(Fault::of_file(Reason::Text))),
        Err(DocumentError::NoMemory) => Err(ReadError::NoMemory),
    }
}

fn migrated(alloc: Global, document: Table) -> Result<List<u8>, ReadError>
    ensures { GivesAs document_of result (migrating (Some (table_view document))) }
{
    accept(alloc, &document)?;
    nests_twice_at_most(&document);
    let raised = raised(alloc, document)?;
    let text = printed(alloc, &raised)?;
    Ok(text)
}

/// Refuses the document of no project.
fn accept(alloc: Global, document: &Table) -> Result<(), ReadError>
    ensures rules { OnOk result (first_broken (project_rules (table_view document.now)) ≡ None) }
    ensures refused { IfErr result (λ error. Fails error (migrating (Some (table_view document.now)))) }
{
    match project_in(alloc, document) {
        Ok(_project) => Ok(()),
        Err(error) => Err(error),
    }
}

/// The text of a document.
fn printed(alloc: Global, document: &Table) -> Result<List<u8>, NoMemory>
    requires { AreShallow 2 (table_view document.now) }
    ensures { IfOk result (λ text. document_of text ≡ Some (table_view document.now)) }
{
    match toml::table_to_string(alloc, document) {
        Ok(text) => Ok(List::from_vec(text.into_bytes())),
        Err(toml::ser::Error::OutOfMemory) => Err(NoMemory),
        Err(toml::ser::Error::DateInvalid) => unreachable!(),
    }
}
