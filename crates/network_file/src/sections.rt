//! The tables of the sections.
ghost use Rattle.std.specs.Prelude.{◌≡◌, ◌≤◌, length, map, IfOk};
ghost use Rattle.toml.specs.View.{table_view};
ghost use Rattle.duct_units.specs.Rules.{unless_refused, first_broken};
ghost use Rattle.file_definitions.specs.Elements.{each};
ghost use Rattle.file_definitions.specs.Reading.{GivesAs, ReadsAs};
ghost use Rattle.toml_fields.specs.ArrayItems.{tables_in};
ghost use Rattle.section_tables.specs.TreeSections.{section_names};
ghost use Rattle.network_file.specs.SectionTables.{all_section_rules, section_rules, section_table_rules, entry_of, tree_sections};
ghost use Rattle.network_file.specs.TableEntries.{section_entry, section_entries};

use duct_definitions::MAX_SECTIONS;
use duct_units::{Fault, ReadError, Reason};
use name_index::NameIndex;
use section_tables::TreeSection;
use std::alloc::Global;
use toml::Table;
use toml_fields::{Arrays, Names, Tables, has_only};

/// What the table of a section says: sizes and pairs are lent by the document.
#[derive(Drop)]
pub(crate) struct SectionTable<'t> {
    pub tree: TreeSection,
    pub sizes: Names<'t>,
    pub pairs: Arrays<'t>,
}

/// Sections in order, and their names.
#[derive(Drop)]
pub(crate) struct Sections<'t> {
    pub names: NameIndex,
    pub tables: Vec<SectionTable<'t>>,
}

/// The sections of the tables, or the first rule that is broken: too many of them; then section by section its
/// table, and a name that an earlier one has.
pub(crate) fn read_sections<'t>(
    alloc: Global,
    tables: &Tables<'t>,
) -> Result<Sections<'t>, ReadError>
    ensures value { let sections = tables_in tables.now in
        GivesAs section_entries result
        (unless_refused (first_broken (all_section_rules sections)) (map entry_of sections)) }
    ensures names { IfOk result (λ sections. sections.names ≡ section_names (tree_sections (section_entries sections))) }
    ensures few { IfOk result (λ sections. length sections.tables.items ≤ MAX_SECTIONS) }
{
    if tables.len() > MAX_SECTIONS {
        return Err(ReadError::Refused(Fault::of_file(Reason::TooMany)));
    }
    read_section_tables(alloc, tables)
}

/// The sections, where they are few enough.
fn read_section_tables<'t>(alloc: Global, tables: &Tables<'t>) -> Result<Sections<'t>, ReadError>
    requires { length (tables_in tables.now) ≤ MAX_SECTIONS }
    ensures value { let sections = tables_in tables.now in
        GivesAs section_entries result
        (unless_refused (first_broken (each section_rules sections)) (map entry_of sections)) }
    ensures names { IfOk result (λ sections. sections.names ≡ section_names (tree_sections (section_entries sections))) }
    ensures few { IfOk result (λ sections. length sections.tables.items ≤ MAX_SECTIONS) }
{
    let mut names = NameIndex::new(alloc);
    let mut sections = Vec::with_capacity(alloc, tables.len()).map_err(|_| ReadError::NoMemory)?;
    for i in 0..tables.len() {
        let place = i as u32 + 1;
        let section = match read_table(tables.get(i), place) {
            Ok(section) => section,
            Err(fault) => return Err(ReadError::Refused(fault)),
        };
        let in_tree = section.tree;
        if !names.add(in_tree.name)? {
            return Err(ReadError::Refused(Fault::of_section(place, Reason::Twice)));
        }
        if sections.push(section).is_err() {
            return Err(ReadError::NoMemory);
        }
    }
    Ok(Sections {
        names,
        tables: sections,
    })
}

/// The table of a section, or the first of its keys that is refused.
fn read_table(table: &Table, place: u32) -> Result<SectionTable<'_>, Fault>
    ensures { let section = table_view table.now in
        ReadsAs section_entry result
        (unless_refused (first_broken (section_table_rules place section)) (entry_of section)) }
{
    if !has_only(table, &["name", "side", "neighbour", "sizes", "pairs"]) {
        return Err(Fault::of_section(place, Reason::Key));
    }
    let Some(tree) = TreeSection::at(table) else {
        return Err(Fault::of_section(place, Reason::Field));
    };
    let Some(sizes) = Names::at(table, "sizes") else {
        return Err(Fault::of_section(place, Reason::Field));
    };
    let Some(pairs) = Arrays::at(table, "pairs") else {
        return Err(Fault::of_section(place, Reason::Field));
    };
    Ok(SectionTable { tree, sizes, pairs })
}
