//! The tree, with what it gives of each section.
ghost use Rattle.std.specs.Prelude.{◌≡◌, ◌<◌, ◌≤◌, length, Some, None, IfSome, IfOk, IsTrue, All};
ghost use Rattle.std.specs.List.Sorted.{IsStrictlyIncreasing};
ghost use Rattle.duct_units.specs.Rules.{Gives, unless_refused, first_broken};
ghost use Rattle.duct_definitions.specs.declared.limits.TheConstants.{MAX_SECTIONS};
ghost use Rattle.duct_definitions.specs.Tree.{Tree, section_count, neighbour, side, children, is_leaf, all_leaves, roots, tree_rules, IsTree};

use crate::lists::{child_lists, leaf_list, root_list};
use crate::rules::broken_rule;
use duct_units::{List, NoMemory, ReadError, Side};
use std::alloc::Global;
use std::marker::Model;

/// Sections, each with its neighbour towards the fan and its side.
#[derive(Debug, Drop)]
pub struct AirTree {
    neighbours: List<Option<u32>>,
    sides: List<Side>,
    child_lists: List<List<u32>>,
    leaf_list: List<u32>,
    supply_roots: List<u32>,
    return_roots: List<u32>,
}

impl Model for AirTree {
    ghost use Rattle.duct_definitions.specs.Tree.{Tree};

    ghost Value = { Tree };

    ghost use Rattle.air_tree.specs.TreeFields.{tree_of, IsIndexed};

    ghost view = { tree_of };

    ghost invariant = { IsIndexed };
}

impl AirTree {
    /// The tree of these neighbours and sides, one entry for each section, or the first rule of a tree that they
    /// break: a count out of bounds; then section by section a neighbour that doesn't stand earlier or is of the
    /// other side; then no supply side.
    pub fn new(
        alloc: Global,
        neighbours: List<Option<u32>>,
        sides: List<Side>,
    ) -> Result<AirTree, ReadError>
        requires { length sides ≡ length neighbours }
        ensures { let tree : Tree = record { neighbours = neighbours; sides = sides } in
            Gives result (unless_refused (first_broken (tree_rules tree)) tree) }
    {
        match broken_rule(neighbours.as_slice(), sides.as_slice()) {
            Some(fault) => Err(ReadError::Refused(fault)),
            None => Ok(indexed(alloc, neighbours, sides)?),
        }
    }

    /// How many sections there are.
    pub fn len(&self) -> u32
        ensures value { result ≡ section_count self.now }
        ensures few { result ≤ MAX_SECTIONS }
        ensures tree { IsTree self.now }
    {
        self.neighbours.as_slice().len() as u32
    }

    /// The next section towards the fan; None at the fan.
    pub fn neighbour(&self, s: u32) -> Option<u32>
        requires { s < section_count self.now }
        ensures value { result ≡ neighbour self.now s }
        ensures earlier { IfSome result (λ n. n < s) }
    {
        self.neighbours.as_slice()[s as usize]
    }

    /// The side of the fan on which a section stands.
    pub fn side(&self, s: u32) -> Side
        requires { s < section_count self.now }
        ensures { result ≡ side self.now s }
    {
        self.sides.as_slice()[s as usize]
    }

    /// The sections whose neighbour the section is, in rising number.
    pub fn children(&self, s: u32) -> &[u32]
        requires { s < section_count self.now }
        ensures value { result.now ≡ children self.now s }
        ensures rising { IsStrictlyIncreasing result.now }
        ensures later { All (λ c. s < c) result.now }
        ensures sections { All (λ c. c < section_count self.now) result.now }
        ensures few { length result.now ≤ MAX_SECTIONS }
    {
        self.child_lists.as_slice()[s as usize].as_slice()
    }

    /// The sections without children, of both sides, in rising number.
    pub fn leaves(&self) -> &[u32]
        ensures value { result.now ≡ all_leaves self.now }
        ensures rising { IsStrictlyIncreasing result.now }
        ensures leaves { All (λ s. IsTrue (is_leaf self.now s)) result.now }
        ensures sections { All (λ s. s < section_count self.now) result.now }
    {
        self.leaf_list.as_slice()
    }

    /// The sections of a side that stand at the fan, in rising number.
    pub fn roots(&self, side: Side) -> &[u32]
        ensures value { result.now ≡ roots self.now side }
        ensures rising { IsStrictlyIncreasing result.now }
        ensures sections { All (λ s. s < section_count self.now) result.now }
        ensures few { length result.now ≤ MAX_SECTIONS }
    {
        match side {
            Side::Supply => self.supply_roots.as_slice(),
            Side::Return => self.return_roots.as_slice(),
        }
    }

    /// Whether this is the number of a section without children.
    pub fn is_leaf(&self, s: u32) -> bool
        ensures { result ≡ is_leaf self.now s }
    {
        s < self.len() && self.children(s).is_empty()
    }

    /// An equal tree.
    pub fn copy(&self, alloc: Global) -> Result<AirTree, NoMemory>
        ensures { IfOk result (λ tree. tree ≡ self.now) }
    {
        let neighbours = Vec::from_slice(alloc, self.neighbours.as_slice())?;
        let sides = Vec::from_slice(alloc, self.sides.as_slice())?;
        indexed(alloc, List::from_vec(neighbours), List::from_vec(sides))
    }
}

/// The tree of neighbours and sides that keep its rules.
fn indexed(
    alloc: Global,
    neighbours: List<Option<u32>>,
    sides: List<Side>,
) -> Result<AirTree, NoMemory>
    requires { IsTree (record { neighbours = neighbours; sides = sides }) }
    ensures { IfOk result (λ tree. tree ≡ record { neighbours = neighbours; sides = sides }) }
{
    let child_lists = child_lists(alloc, neighbours.as_slice())?;
    let leaf_list = leaf_list(alloc, neighbours.as_slice(), child_lists.as_slice())?;
    let supply_roots = root_list(alloc, neighbours.as_slice(), sides.as_slice(), Side::Supply)?;
    let return_roots = root_list(alloc, neighbours.as_slice(), sides.as_slice(), Side::Return)?;
    Ok(AirTree {
        neighbours,
        sides,
        child_lists,
        leaf_list,
        supply_roots,
        return_roots,
    })
}
