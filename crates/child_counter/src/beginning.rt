//! The words of a tree before the first event.
ghost use Rattle.std.specs.Prelude.{◌≡◌, ◌<◌, IfOk};
ghost use Rattle.duct_definitions.specs.Tree.{section_count};
ghost use Rattle.schedule_core.specs.Schedule.{at_start};
ghost use Rattle.schedule_core.specs.CoreFields.{AreNumbers, number_of};
ghost use Rattle.child_counter.specs.Shown.{AreWords, all_roots, open_among};

use air_tree::AirTree;
use duct_units::{NoMemory, Side};
use std::alloc::Global;

/// One word for each section, and behind them the roots' word.
pub(crate) fn first_words(alloc: Global, tree: &AirTree) -> Result<Vec<u64>, NoMemory>
    ensures { IfOk result (λ words. AreWords tree.now at_start words.items) }
{
    let mut words = section_words(alloc, tree)?;
    words.push(root_count(tree))?;
    Ok(words)
}

/// The word of each section, and room for one more.
fn section_words(alloc: Global, tree: &AirTree) -> Result<Vec<u64>, NoMemory>
    ensures { IfOk result (λ words. AreNumbers tree.now at_start (section_count tree.now) words.items) }
{
    let mut words = Vec::with_capacity(alloc, tree.len() as usize + 1)?;
    for s in 0..tree.len() {
        words.push(first_word(tree, s))?;
    }
    Ok(words)
}

/// Of a leaf 1, of another section the number of its children.
#[tactic(auto, using(schedule_core::proofs::Numbers::number_start))]
fn first_word(tree: &AirTree, s: u32) -> u64
    requires { s < section_count tree.now }
    ensures { result ≡ number_of tree.now at_start s }
{
    (tree.children(s).len() as u64).max(1)
}

/// The number of sections at the fan.
fn root_count(tree: &AirTree) -> u64
    ensures { result ≡ open_among at_start (all_roots tree.now) }
{
    tree.roots(Side::Supply).len() as u64 + tree.roots(Side::Return).len() as u64
}
