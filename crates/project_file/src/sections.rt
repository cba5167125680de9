//! The tables of the sections.
ghost use Rattle.std.specs.Prelude.{◌≡◌, ◌≤◌, length, map, All, IfOk};
ghost use Rattle.toml.specs.View.{table_view};
ghost use Rattle.duct_units.specs.Rules.{unless_refused, first_broken};
ghost use Rattle.duct_definitions.specs.Network.{AreNames};
ghost use Rattle.file_definitions.specs.Document.{has_only};
ghost use Rattle.file_definitions.specs.Elements.{each};
ghost use Rattle.file_definitions.specs.Reading.{GivesAs};
ghost use Rattle.toml_fields.specs.ArrayItems.{tables_in};
ghost use Rattle.project_file.specs.Sections.{IsSection, tree_sections};
ghost use Rattle.project_file.specs.SectionTables.{all_section_rules, section_rules, section_table_rules, section_in, section_keys};
ghost use Rattle.project_file.specs.TableEntries.{entries_of};
ghost use Rattle.section_tables.specs.TreeSections.{section_names};

use crate::format::Format;
use crate::section_table::{SectionTable, section_at};
use duct_definitions::MAX_SECTIONS;
use duct_units::{Fault, ReadError, Reason};
use name_index::NameIndex;
use std::alloc::Global;
use toml::Table;
use toml_fields::{Tables, has_only};

/// The keys of a section's table. Format 1 has all but the last.
const KEYS: [&str; 13] = [
    "name",
    "side",
    "neighbour",
    "length",
    "list",
    "local",
    "junction",
    "device",
    "flow",
    "preset",
    "velocity",
    "height",
    "leak",
];

/// Sections in order, and their names.
#[derive(Drop)]
pub(crate) struct Sections {
    pub names: NameIndex,
    pub entries: Vec<SectionTable>,
}

/// The sections of the tables, or the first rule that is broken: too many of them; then section by section its table,
/// and a name that an earlier one has.
pub(crate) fn read_sections(
    alloc: Global,
    tables: &Tables<'_>,
    format: Format,
) -> Result<Sections, ReadError>
    ensures value { let sections = tables_in tables.now in
        GivesAs entries_of result
        (unless_refused (first_broken (all_section_rules format sections))
        (map section_in sections)) }
    ensures names { IfOk result (λ sections. sections.names ≡ section_names (tree_sections sections.entries.items)) }
    ensures few { IfOk result (λ sections. length sections.entries.items ≤ MAX_SECTIONS) }
    ensures bounds { IfOk result (λ sections. All IsSection sections.entries.items) }
    ensures apart { IfOk result (λ sections. AreNames (section_names (tree_sections sections.entries.items))) }
{
    if tables.len() > MAX_SECTIONS {
        return Err(ReadError::Refused(Fault::of_file(Reason::TooMany)));
    }
    read_section_tables(alloc, tables, format)
}

/// The sections, where they are few enough.
fn read_section_tables(
    alloc: Global,
    tables: &Tables<'_>,
    format: Format,
) -> Result<Sections, ReadError>
    requires few { length (tables_in tables.now) ≤ MAX_SECTIONS }
    ensures value { let sections = tables_in tables.now in
        GivesAs entries_of result
        (unless_refused (first_broken (each (section_rules format) sections))
        (map section_in sections)) }
    ensures names { IfOk result (λ sections. sections.names ≡ section_names (tree_sections sections.entries.items)) }
    ensures few { IfOk result (λ sections. length sections.entries.items ≤ MAX_SECTIONS) }
    ensures bounds { IfOk result (λ sections. All IsSection sections.entries.items) }
    ensures apart { IfOk result (λ sections. AreNames (section_names (tree_sections sections.entries.items))) }
{
    let mut names = NameIndex::new(alloc);
    let mut entries = Vec::with_capacity(alloc, tables.len()).map_err(|_| ReadError::NoMemory)?;
    for i in 0..tables.len() {
        let place = i as u32 + 1;
        let section = read_table(tables.get(i), format, place)?;
        if !names.add(section.name)? {
            return Err(ReadError::Refused(Fault::of_section(place, Reason::Twice)));
        }
        if entries.push(section).is_err() {
            return Err(ReadError::NoMemory);
        }
    }
    Ok(Sections { names, entries })
}

/// The table of a section, or the first of its rules that is broken.
fn read_table(table: &Table, format: Format, place: u32) -> Result<SectionTable, Fault>
    ensures value { let section = table_view table.now in
        result ≡ unless_refused (first_broken (section_table_rules format place section))
        (section_in section) }
    ensures bounds { IfOk result IsSection }
{
    if !has_listed_keys(table, format) {
        return Err(Fault::of_section(place, Reason::Key));
    }
    let Some(section) = section_at(table) else {
        return Err(Fault::of_section(place, Reason::Field));
    };
    if section.is_junction_at_fan() {
        return Err(Fault::of_section(place, Reason::JunctionAtFan));
    }
    Ok(section)
}

/// Whether the table has no keys but those of the format.
fn has_listed_keys(table: &Table, format: Format) -> bool
    ensures { result ≡ has_only (section_keys format) (table_view table.now) }
{
    match format {
        Format::One => has_only(table, &KEYS[..KEYS.len() - 1]),
        Format::Two => has_only(table, &KEYS),
    }
}
