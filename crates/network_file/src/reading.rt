//! The order of the reading: the document, the top table, the fans, the sections, their neighbours, the tree, and
//! the sizes and pairs.
ghost use Rattle.toml.specs.View.{table_view};
ghost use Rattle.duct_units.specs.Rules.{Gives, unless_refused, first_broken};
ghost use Rattle.section_tables.specs.Neighbours.{neighbour_and_tree_rules, tree_of};
ghost use Rattle.section_tables.specs.TreeSections.{section_names};
ghost use Rattle.network_file.specs.NetworkFile.{network_of, reading};
ghost use Rattle.network_file.specs.SectionTables.{tree_sections};
ghost use Rattle.network_file.specs.TableEntries.{section_entry};
ghost use Rattle.std.specs.Prelude.{◌≡◌, ◌≤◌, Some, length, map, IfOk};

use crate::fans::read_fans;
use crate::sections::{SectionTable, read_sections};
use crate::sizes_and_pairs::read_all_sizes_and_pairs;
use crate::top::read_top;
use air_tree::AirTree;
use duct_definitions::MAX_SECTIONS;
use duct_units::{Fault, NoMemory, ReadError, Reason};
use name_index::NameIndex;
use net_model::Network;
use section_tables::{TreeSection, read_tree};
use std::alloc::Global;
use toml::Table;
use toml_fields::{DocumentError, read_document};

/// The network of a network file, or the first rule of the file that it breaks (docs/FORMATS.md, "Network file").
///
/// The bytes may be of any length. What is kept beside the document is bounded by the limits of a network.
pub fn read_network(alloc: Global, bytes: &[u8]) -> Result<Network, ReadError>
    ensures { Gives result (network_of bytes.now) }
{
    match read_document(alloc, bytes) {
        Ok(document) => network_in(alloc, &document),
        Err(DocumentError::Text) => Err(ReadError::Refused(Fault::of_file(Reason::Text))),
        Err(DocumentError::NoMemory) => Err(ReadError::NoMemory),
    }
}

/// The network of a document, or the first rule that it breaks.
fn network_in(alloc: Global, document: &Table) -> Result<Network, ReadError>
    ensures { Gives result (reading (Some (table_view document.now))) }
{
    let top = match read_top(document) {
        Ok(top) => top,
        Err(fault) => return Err(ReadError::Refused(fault)),
    };
    let fans = read_fans(alloc, &top.fans)?;
    let sections = match read_sections(alloc, &top.sections) {
        Ok(sections) => sections,
        Err(error) => return Err(error),
    };
    let tables = sections.tables.as_slice();
    let tree = tree_of(alloc, tables, &sections.names)?;
    let lists = read_all_sizes_and_pairs(alloc, tables, &tree)?;
    Ok(Network::new(
        top.name,
        tree,
        sections.names.into_list(),
        lists.sizes,
        lists.pairs,
        fans,
    ))
}

/// The tree of the sections, or the first rule of their neighbours or of a tree that they break.
fn tree_of(
    alloc: Global,
    sections: &[SectionTable],
    names: &NameIndex,
) -> Result<AirTree, ReadError>
    requires few { length sections.now ≤ MAX_SECTIONS }
    requires names { names.now ≡ section_names (tree_sections (map section_entry sections.now)) }
    ensures { let in_tree = tree_sections (map section_entry sections.now) in
        Gives result (unless_refused (first_broken (neighbour_and_tree_rules in_tree)) (tree_of in_tree)) }
{
    let in_tree = tree_sections(alloc, sections)?;
    read_tree(alloc, in_tree.as_slice(), names)
}

/// What each section says of the tree.
fn tree_sections(alloc: Global, sections: &[SectionTable]) -> Result<Vec<TreeSection>, NoMemory>
    ensures { IfOk result (λ in_tree. in_tree.items ≡ tree_sections (map section_entry sections.now)) }
{
    let mut in_tree = Vec::with_capacity(alloc, sections.len())?;
    for section in sections {
        in_tree.push(section.tree)?;
    }
    Ok(in_tree)
}
