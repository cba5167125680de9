//! The order of the reading: the document, the top table, the sections, their neighbours, the tree and its airflows.
ghost use Rattle.std.specs.Prelude.{◌≡◌, ◌≤◌, Some, length, map, All, IfOk};
ghost use Rattle.toml.specs.View.{table_view};
ghost use Rattle.duct_units.specs.Rules.{Gives, unless_refused, first_broken};
ghost use Rattle.file_definitions.specs.Reading.{GivesAs};
ghost use Rattle.duct_definitions.specs.Network.{AreNames};
ghost use Rattle.section_tables.specs.TreeSections.{section_names};
ghost use Rattle.project_file.specs.ProjectFile.{project_of, reading, tree_and_flow_rules, project_with};
ghost use Rattle.project_file.specs.Projects.{IsProject};
ghost use Rattle.project_file.specs.Sections.{IsSection, rows_of, tree_sections};
ghost use Rattle.project_file.specs.TableEntries.{top_entry};
ghost use Rattle.project_file.specs.TopTable.{IsTop};

use crate::airflows::read_flows;
use crate::project::Project;
use crate::section_row::SectionRow;
use crate::section_table::SectionTable;
use crate::sections::{Sections, read_sections};
use crate::size_limits::SizeLimits;
use crate::top::{Top, read_top};
use duct_definitions::MAX_SECTIONS;
use duct_units::{Fault, List, NoMemory, ReadError, Reason};
use section_tables::{TreeSection, read_tree};
use std::alloc::Global;
use toml::Table;
use toml_fields::{DocumentError, read_document};

/// The project of a project file of format 1 or 2, or the first rule of the file that it breaks (docs/FORMATS.md,
/// "Project file"). That a catalogue has the lists, tables and sizes that it names is not looked at.
///
/// The bytes may be of any length. What is kept beside the document is bounded by the limits of a project.
pub fn read_project(alloc: Global, bytes: &[u8]) -> Result<Project, ReadError>
    ensures value { Gives result (project_of bytes.now) }
    ensures valid { IfOk result IsProject }
{
    match read_document(alloc, bytes) {
        Ok(document) => project_in(alloc, &document),
        Err(DocumentError::Text) => Err(ReadError::Refused(Fault::of_file(Reason::Text))),
        Err(DocumentError::NoMemory) => Err(ReadError::NoMemory),
    }
}

/// The project of a document, or the first rule that it breaks.
pub(crate) fn project_in(alloc: Global, document: &Table) -> Result<Project, ReadError>
    ensures value { Gives result (reading (Some (table_view document.now))) }
    ensures valid { IfOk result IsProject }
{
    let top = match read_top(document) {
        Ok(top) => top,
        Err(fault) => return Err(ReadError::Refused(fault)),
    };
    let sections = read_sections(alloc, &top.sections, top.head.format)?;
    project_with(alloc, &top, &sections)
}

/// The project of the top table and the sections, or the first rule of the tree or of airflows that is broken.
fn project_with(alloc: Global, top: &Top<'_>, sections: &Sections) -> Result<Project, ReadError>
    requires top { IsTop (top_entry top.now) }
    requires few { length sections.now.entries.items ≤ MAX_SECTIONS }
    requires names { sections.now.names ≡ section_names (tree_sections sections.now.entries.items) }
    requires bounds { All IsSection sections.now.entries.items }
    requires apart { AreNames (section_names (tree_sections sections.now.entries.items)) }
    ensures value { let entries = sections.now.entries.items in
        Gives result
        (unless_refused (first_broken (tree_and_flow_rules top.now.limits entries)) (project_with (top_entry top.now) entries)) }
    ensures valid { IfOk result IsProject }
{
    let in_tree = tree_parts(alloc, sections.entries.as_slice())?;
    let tree = read_tree(alloc, in_tree.as_slice(), &sections.names)?;
    let rows = row_parts(alloc, sections.entries.as_slice(), &top.limits)?;
    let flows = read_flows(alloc, &tree, rows.as_slice())?;
    Ok(Project {
        name: top.head.name,
        density: top.head.density,
        energy: top.energy,
        taper: top.limits.taper,
        tree,
        flows,
        sections: rows,
    })
}

/// What each section says of the tree.
fn tree_parts(alloc: Global, sections: &[SectionTable]) -> Result<Vec<TreeSection>, NoMemory>
    ensures { IfOk result (λ parts. parts.items ≡ tree_sections sections.now) }
{
    let mut parts = Vec::with_capacity(alloc, sections.len())?;
    for section in sections {
        parts.push(section.in_tree())?;
    }
    Ok(parts)
}

/// What each section says apart from the tree, in a project with these limits.
fn row_parts(
    alloc: Global,
    sections: &[SectionTable],
    limits: &SizeLimits,
) -> Result<List<SectionRow>, NoMemory>
    ensures { IfOk result (λ rows. rows ≡ rows_of limits.now sections.now) }
{
    let mut rows = Vec::with_capacity(alloc, sections.len())?;
    for section in sections {
        rows.push(section.row(limits))?;
    }
    Ok(List::from_vec(rows))
}
