//! The walks over the sections, on one list with a number for each section, in place: losses become path losses, path
//! losses slacks, and slacks dampers.
ghost use Rattle.std.specs.Prelude.{◌≡◌, ◌≤◌, ◌<◌, ◌-◌, ◌^◌, ℕ, length, slice_index, IsTrue, All};
ghost use Rattle.duct_units.specs.Prices.{lesser};
ghost use Rattle.duct_units.specs.Side.{same_side};
ghost use Rattle.duct_definitions.specs.Tree.{IsTree, section_count, neighbour, at_neighbour, side as side_of, leaves, is_leaf};
ghost use Rattle.damper_balance.specs.SectionNumbers.{ListsEach, sum_on_way, greatest_at, least_at, head_on, slack_by, damper_by};

use air_tree::AirTree;
use duct_units::{Side, lesser};

/// What every path of each side takes, dampers included, dPa.
#[derive(Clone, Copy, Debug)]
pub struct Heads {
    /// The head of the supply side.
    pub supply: u64,
    /// The head of the return side.
    pub back: u64,
}

impl Heads {
    /// The head of the side.
    fn on(self, side: Side) -> u64
        ensures { result ≡ head_on self side }
    {
        match side {
            Side::Supply => self.supply,
            Side::Return => self.back,
        }
    }
}

/// Adds to the number of each section those of the sections from its neighbour to the fan, so that losses become path
/// losses. The neighbour stands earlier, and has its sum already.
pub fn add_along_ways(tree: &AirTree, numbers: &mut [u64])
    requires count { length numbers.old ≡ section_count tree.now }
    requires fits { (s : ℕ) → s < section_count tree.now → sum_on_way tree.now numbers.old s < 2 ^ 64 }
    ensures { ListsEach tree.now (sum_on_way tree.now numbers.old) numbers.new }
{
    for s in 0..tree.len() {
        numbers[s as usize] += number_beside(tree, numbers, s);
    }
}

/// The number of the neighbour; 0 at the fan.
fn number_beside(tree: &AirTree, numbers: &[u64], s: u32) -> u64
    requires count { length numbers.now ≡ section_count tree.now }
    requires section { s < section_count tree.now }
    ensures { result ≡ at_neighbour (slice_index numbers.now) (neighbour tree.now s) }
{
    match tree.neighbour(s) {
        Some(n) => numbers[n as usize],
        None => 0,
    }
}

/// The greatest number of the side's leaves; 0 for a side without sections.
pub fn greatest(tree: &AirTree, numbers: &[u64], side: Side) -> u64
    requires { length numbers.now ≡ section_count tree.now }
    ensures { result ≡ greatest_at numbers.now (leaves tree.now side) }
{
    let mut most: u64 = 0;
    for leaf in tree.leaves() {
        if is_on(tree, *leaf, side) {
            most = most.max(numbers[*leaf as usize]);
        }
    }
    most
}

fn is_on(tree: &AirTree, s: u32, side: Side) -> bool
    requires { s < section_count tree.now }
    ensures { result ≡ same_side (side_of tree.now s) side }
{
    tree.side(s) == side
}

/// Writes what the damper of each section takes in place of its path loss, by the heads of both sides.
pub fn throttle(tree: &AirTree, heads: Heads, numbers: &mut [u64])
    requires count { length numbers.old ≡ section_count tree.now }
    requires fits { (s : ℕ) → IsTrue (is_leaf tree.now s)
        → slice_index numbers.old s ≤ head_on heads (side_of tree.now s) }
    ensures { ListsEach tree.now (damper_by tree.now heads numbers.old) numbers.new }
{
    slacks(tree, heads, numbers);
    less_neighbours(tree, numbers);
}

/// Writes the slack of each section in place of its path loss, by the slacks of its children, which stand later.
fn slacks(tree: &AirTree, heads: Heads, numbers: &mut [u64])
    requires count { length numbers.old ≡ section_count tree.now }
    requires fits { (s : ℕ) → IsTrue (is_leaf tree.now s)
        → slice_index numbers.old s ≤ head_on heads (side_of tree.now s) }
    ensures slacks { ListsEach tree.now (slack_by tree.now heads numbers.old) numbers.new }
    ensures tree { IsTree tree.now }
{
    for s in (0..tree.len()).rev() {
        numbers[s as usize] = match least_number(tree.children(s), numbers) {
            Some(least) => least,
            None => heads.on(tree.side(s)) - numbers[s as usize],
        };
    }
}

/// The least number of these sections; None of no section.
fn least_number(sections: &[u32], numbers: &[u64]) -> Option<u64>
    requires { All (λ s. s < length numbers.now) sections.now }
    ensures { result ≡ least_at numbers.now sections.now }
{
    let mut least = None;
    for s in sections {
        least = lesser(least, Some(numbers[*s as usize]));
    }
    least
}

/// Takes from the number of each section its neighbour's, which is no greater.
fn less_neighbours(tree: &AirTree, numbers: &mut [u64])
    requires count { length numbers.old ≡ section_count tree.now }
    requires fits { (s : ℕ) → s < section_count tree.now →
        at_neighbour (slice_index numbers.old) (neighbour tree.now s) ≤ slice_index numbers.old s }
    ensures { ListsEach tree.now
        (λ s. slice_index numbers.old s - at_neighbour (slice_index numbers.old) (neighbour tree.now s)) numbers.new }
{
    for s in (0..tree.len()).rev() {
        numbers[s as usize] -= number_beside(tree, numbers, s);
    }
}
