//! The neighbours of the sections.
ghost use Rattle.std.specs.Prelude.{◌≡◌, ◌≤◌, length, map};
ghost use Rattle.duct_units.specs.Rules.{Gives, unless_refused, first_broken};
ghost use Rattle.section_tables.specs.TreeSections.{section_names};
ghost use Rattle.section_tables.specs.Neighbours.{all_neighbour_rules, neighbour_of, neighbour_among, known_rules};

use crate::tree_section::TreeSection;
use duct_definitions::MAX_SECTIONS;
use duct_units::{Fault, List, Name, ReadError, Reason};
use name_index::NameIndex;
use std::alloc::Global;

/// Of each section the number of its neighbour, or the first neighbour that is no section.
pub fn read_neighbours(
    alloc: Global,
    sections: &[TreeSection],
    names: &NameIndex,
) -> Result<List<Option<u32>>, ReadError>
    requires few { length sections.now ≤ MAX_SECTIONS }
    requires names { names.now ≡ section_names sections.now }
    ensures { Gives result
        (unless_refused (first_broken (all_neighbour_rules sections.now))
        (map (neighbour_of sections.now) sections.now)) }
{
    let mut neighbours = Vec::with_capacity(alloc, sections.len())?;
    for i in 0..sections.len() {
        let neighbour = find_neighbour(sections[i].neighbour, names, i as u32 + 1)?;
        neighbours.push(neighbour)?;
    }
    Ok(List::from_vec(neighbours))
}

/// The number of the neighbour; none at the fan.
fn find_neighbour(
    neighbour: Option<Name>,
    names: &NameIndex,
    place: u32,
) -> Result<Option<u32>, Fault>
    requires { length names.now ≤ MAX_SECTIONS }
    ensures { result ≡ unless_refused (first_broken (known_rules names.now place neighbour))
        (neighbour_among names.now neighbour) }
{
    let Some(name) = neighbour else {
        return Ok(None);
    };
    match names.find(&name) {
        Some(n) => Ok(Some(n as u32)),
        None => Err(Fault::of_section(place, Reason::UnknownNeighbour)),
    }
}
