//! A project with one field of one section changed.
ghost use Rattle.std.specs.Prelude.{◌≡◌, ◌<◌, not, length, set, All, IfOk};
ghost use Rattle.duct_definitions.specs.Tree.{section_count, is_leaf};
ghost use Rattle.project_file.specs.Projects.{IsProject, IsRow};
ghost use Rattle.net_build.specs.Rows.{row_at};
ghost use Rattle.edit_script.specs.Scripts.{IsChange};
ghost use Rattle.project_edit.specs.Edits.{row_with, edited, edited_rows};
ghost use Rattle.project_edit.specs.Refusals.{Edits, edit_refusal, is_listed_in, suits_leaf, suits_list};

use crate::edit::{Edit, EditError};
use air_tree::AirTree;
use duct_units::{List, Name, NoMemory, Reason};
use edit_script::Change;
use net_build::place_in_list;
use project_file::{Project, SectionRow, read_flows};
use size_catalogue::Sizes;
use std::alloc::Global;

/// The project with the one field of the named section changed, and the airflows of its tree; or the first refusal: an
/// airflow at a section that isn't a leaf, a preset that isn't in the section's list, a section that would carry more
/// than a section may.
pub fn edited(
    alloc: Global,
    project: &Project,
    sizes: &Sizes,
    edit: &Edit,
) -> Result<Project, EditError>
    requires project { IsProject project.now }
    requires section { edit.now.section < section_count project.now.tree }
    requires change { IsChange edit.now.change }
    ensures value { Edits result (edit_refusal project.now sizes.now edit.now) (edited project.now edit.now) }
    ensures project { IfOk result IsProject }
{
    if !suits_leaf(&project.tree, edit) {
        return Err(EditError::Refused(Reason::FlowGiven));
    }
    let row = project.sections.as_slice()[edit.section as usize];
    if !suits_list(alloc, sizes, &row.list, &edit.change)? {
        return Err(EditError::Refused(Reason::UnknownPreset));
    }
    let sections = edited_rows(alloc, project, edit)?;
    let flows = match read_flows(alloc, &project.tree, sections.as_slice()) {
        Ok(flows) => flows,
        Err(error) => return Err(EditError::from(error)),
    };
    Ok(Project {
        name: project.name,
        density: project.density,
        energy: project.energy,
        taper: project.taper,
        tree: project.tree.copy(alloc)?,
        flows,
        sections,
    })
}

/// Whether the named section is a leaf, where it is given an airflow.
fn suits_leaf(tree: &AirTree, edit: &Edit) -> bool
    ensures { result ≡ suits_leaf (is_leaf tree.now edit.now.section) edit.now.change }
{
    match edit.change {
        Change::Airflow(_) => tree.is_leaf(edit.section),
        _ => true,
    }
}

/// Whether the list has the size, where a preset is given.
fn suits_list(alloc: Global, sizes: &Sizes, list: &Name, change: &Change) -> Result<bool, NoMemory>
    ensures { IfOk result (λ suits. suits ≡ suits_list sizes.now list.now change.now) }
{
    match change {
        Change::Preset(Some(name)) => Ok(place_in_list(alloc, sizes, list, name)?.is_some()),
        _ => Ok(true),
    }
}

/// What is said of all sections, with that of the named one changed.
fn edited_rows(alloc: Global, project: &Project, edit: &Edit) -> Result<List<SectionRow>, NoMemory>
    requires rows { length project.now.sections ≡ section_count project.now.tree }
    requires section { edit.now.section < section_count project.now.tree }
    ensures { IfOk result (λ rows. rows ≡ edited_rows project.now edit.now) }
{
    let s = edit.section as usize;
    let mut rows = Vec::from_slice(alloc, project.sections.as_slice())?;
    rows[s] = row_with(&edit.change, &rows[s]);
    Ok(List::from_vec(rows))
}

/// What is said of a section, with the one field changed.
fn row_with(change: &Change, row: &SectionRow) -> SectionRow
    ensures { result ≡ row_with change.now row.now }
{
    match change {
        Change::Length(length) => SectionRow {
            length: *length,
            ..*row
        },
        Change::Device(device) => SectionRow {
            device: *device,
            ..*row
        },
        Change::Airflow(flow) => SectionRow {
            airflow: Some(*flow),
            ..*row
        },
        Change::Preset(name) => SectionRow {
            preset: *name,
            ..*row
        },
    }
}
