//! Which sections an edit touches.
ghost use Rattle.std.specs.Prelude.{◌≡◌, ◌<◌, IfOk};
ghost use Rattle.duct_definitions.specs.Tree.{IsTree, section_count, neighbour};
ghost use Rattle.project_edit.specs.Touched.{is_on_way, is_way_next, is_changed, is_touched, touched_in};

use crate::edit::Edit;
use air_tree::AirTree;
use duct_units::{List, NoMemory};
use edit_script::Change;
use std::alloc::Global;

/// The sections that the edit touches, in rising number: those that are condensed again. Where the greatest pressure of
/// the fans on offer isn't kept, they are all sections.
pub fn touched(
    alloc: Global,
    tree: &AirTree,
    edit: &Edit,
    is_cap_kept: bool,
) -> Result<List<u32>, NoMemory>
    requires { edit.now.section < section_count tree.now }
    ensures { IfOk result (λ sections. sections ≡ touched_in tree.now edit.now is_cap_kept) }
{
    let mut sections = Vec::new(alloc);
    for s in 0..tree.len() {
        if is_touched(tree, edit, is_cap_kept, s) {
            sections.push(s)?;
        }
    }
    Ok(List::from_vec(sections))
}

/// Whether the edit touches section `s`.
pub fn is_touched(tree: &AirTree, edit: &Edit, is_cap_kept: bool, s: u32) -> bool
    requires edit { edit.now.section < section_count tree.now }
    requires section { s < section_count tree.now }
    ensures { result ≡ is_touched tree.now edit.now is_cap_kept s }
{
    !is_cap_kept || is_changed(tree, &edit.change, edit.section, s)
}

/// Whether a change of section `x` changes the pairs of section `s`, or of a section beyond it.
fn is_changed(tree: &AirTree, change: &Change, x: u32, s: u32) -> bool
    requires named { x < section_count tree.now }
    requires section { s < section_count tree.now }
    ensures { result ≡ is_changed tree.now change.now x s }
{
    match change {
        Change::Airflow(_) => is_on_way(tree, x, s) || is_next_to_way(tree, x, s),
        _ => is_on_way(tree, x, s),
    }
}

/// Whether the neighbour of section `s` stands on the way of section `x` to the fan.
fn is_next_to_way(tree: &AirTree, x: u32, s: u32) -> bool
    requires named { x < section_count tree.now }
    requires section { s < section_count tree.now }
    ensures { result ≡ is_way_next tree.now x (neighbour tree.now s) }
{
    match tree.neighbour(s) {
        Some(n) => is_on_way(tree, x, n),
        None => false,
    }
}

/// Whether section `s` stands on the way of section `x` to the fan.
fn is_on_way(tree: &AirTree, x: u32, s: u32) -> bool
    requires { x < section_count tree.now }
    ensures { result ≡ is_on_way tree.now x s }
{
    tree_is_valid(tree);
    let mut at = Some(x);
    while let Some(y) = at {
        if y == s {
            return true;
        }
        at = tree.neighbour(y);
    }
    false
}

/// Neighbours stand earlier. The call does nothing: a proof learns its clause where the call stands.
fn tree_is_valid(tree: &AirTree)
    ensures { IsTree tree.now }
{
    let _ = tree.len();
}
