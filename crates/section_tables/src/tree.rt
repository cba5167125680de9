//! The tree of the sections.
ghost use Rattle.std.specs.Prelude.{◌≡◌, ◌≤◌, length, map, IfOk};
ghost use Rattle.duct_units.specs.Rules.{Gives, unless_refused, first_broken};
ghost use Rattle.section_tables.specs.TreeSections.{section_names};
ghost use Rattle.section_tables.specs.Neighbours.{neighbour_and_tree_rules, tree_of};

use crate::neighbours::read_neighbours;
use crate::tree_section::TreeSection;
use air_tree::AirTree;
use duct_definitions::MAX_SECTIONS;
use duct_units::{List, NoMemory, ReadError, Side};
use name_index::NameIndex;
use std::alloc::Global;

/// The tree of the sections, or the first rule that is broken: section by section a neighbour that no section is; then
/// the rules of a tree (docs/RULES.md, "Tree").
pub fn read_tree(
    alloc: Global,
    sections: &[TreeSection],
    names: &NameIndex,
) -> Result<AirTree, ReadError>
    requires few { length sections.now ≤ MAX_SECTIONS }
    requires names { names.now ≡ section_names sections.now }
    ensures { Gives result
        (unless_refused (first_broken (neighbour_and_tree_rules sections.now)) (tree_of sections.now)) }
{
    let neighbours = read_neighbours(alloc, sections, names)?;
    let sides = sides_of(alloc, sections)?;
    AirTree::new(alloc, neighbours, sides)
}

/// The side of each section.
fn sides_of(alloc: Global, sections: &[TreeSection]) -> Result<List<Side>, NoMemory>
    ensures { IfOk result (λ sides. sides ≡ map (λ section. section.side) sections.now) }
{
    let mut sides = Vec::with_capacity(alloc, sections.len())?;
    for section in sections {
        sides.push(section.side)?;
    }
    Ok(List::from_vec(sides))
}
