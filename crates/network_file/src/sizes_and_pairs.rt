//! The sizes and pairs of all sections.
ghost use Rattle.std.specs.Prelude.{◌≡◌, ◌<◌, ◌≤◌, [], length, map, option_map, unwrap_or, slice_get, All, IfSome, IfOk};
ghost use Rattle.duct_units.specs.Rules.{Gives, unless_refused, first_broken};
ghost use Rattle.duct_definitions.specs.Tree.{section_count, neighbour};
ghost use Rattle.section_tables.specs.Neighbours.{tree_of};
ghost use Rattle.network_file.specs.Pairs.{all_size_and_pair_rules, all_sizes_and_pairs, size_and_pair_rules, sizes_and_pairs};
ghost use Rattle.network_file.specs.SectionTables.{tree_sections};
ghost use Rattle.network_file.specs.TableEntries.{section_entry};

use crate::pairs::read_pairs;
use crate::sections::SectionTable;
use crate::sizes::read_sizes;
use air_tree::AirTree;
use duct_definitions::{MAX_SECTIONS, MAX_SIZES, Pair};
use duct_units::{List, Name, ReadError};
use std::alloc::Global;

/// Of each section its sizes, and its pairs by its size and then by its neighbour's.
#[derive(Drop)]
pub(crate) struct AllSizesAndPairs {
    pub sizes: List<List<Name>>,
    pub pairs: List<List<Option<Pair>>>,
}

/// The sizes of one section, and its pairs by its size and then by its neighbour's.
#[derive(Drop)]
pub(crate) struct SizesAndPairs {
    pub sizes: List<Name>,
    pub pairs: List<Option<Pair>>,
}

/// The sizes and pairs of the sections of a tree, or the first rule that is broken, section by section.
pub(crate) fn read_all_sizes_and_pairs(
    alloc: Global,
    sections: &[SectionTable],
    tree: &AirTree,
) -> Result<AllSizesAndPairs, ReadError>
    requires few { length sections.now ≤ MAX_SECTIONS }
    requires tree { tree.now ≡ tree_of (tree_sections (map section_entry sections.now)) }
    ensures { let entries = map section_entry sections.now in
        Gives result (unless_refused (first_broken (all_size_and_pair_rules entries)) (all_sizes_and_pairs entries)) }
{
    let mut sizes = Vec::with_capacity(alloc, sections.len()).map_err(|_| ReadError::NoMemory)?;
    let mut pairs = Vec::with_capacity(alloc, sections.len()).map_err(|_| ReadError::NoMemory)?;
    for i in 0..sections.len() {
        let place = i as u32 + 1;
        let count = neighbour_size_count(tree, sizes.as_slice(), i as u32);
        let own = read_sizes_and_pairs(alloc, &sections[i], count, place)?;
        if sizes.push(own.sizes).is_err() || pairs.push(own.pairs).is_err() {
            return Err(ReadError::NoMemory);
        }
    }
    Ok(AllSizesAndPairs {
        sizes: List::from_vec(sizes),
        pairs: List::from_vec(pairs),
    })
}

/// The sizes and the pairs of the section at a place, from how many sizes its neighbour has.
fn read_sizes_and_pairs(
    alloc: Global,
    section: &SectionTable,
    neighbour_count: Option<usize>,
    place: u32,
) -> Result<SizesAndPairs, ReadError>
    requires { IfSome neighbour_count (λ n. n ≤ MAX_SIZES) }
    ensures value { let entry = section_entry section.now in
        Gives result (unless_refused (first_broken (size_and_pair_rules place neighbour_count entry))
        (sizes_and_pairs neighbour_count entry)) }
    ensures few { IfOk result (λ own. length own.sizes ≤ MAX_SIZES) }
{
    let sizes = read_sizes(alloc, &section.sizes, place)?;
    let size_count = sizes.as_slice().len();
    let pairs = read_pairs(alloc, &section.pairs, size_count, neighbour_count, place)?;
    Ok(SizesAndPairs { sizes, pairs })
}

/// How many sizes the neighbour of a section has, whose sizes were read before; none at the fan.
fn neighbour_size_count(tree: &AirTree, sizes: &[List<Name>], s: u32) -> Option<usize>
    requires section { s < section_count tree.now }
    requires read { s ≤ length sizes.now }
    requires few { All (λ names. length names ≤ MAX_SIZES) sizes.now }
    ensures value { result ≡ option_map (λ n. length (unwrap_or (slice_get sizes.now n) [])) (neighbour tree.now s) }
    ensures few { IfSome result (λ n. n ≤ MAX_SIZES) }
    ensures earlier { IfSome (neighbour tree.now s) (λ n. n < s) }
{
    let n = tree.neighbour(s)?;
    Some(sizes[n as usize].as_slice().len())
}
