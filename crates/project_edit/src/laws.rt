//! Laws of edits. Each is the contract of a call that has nothing to do.
ghost use Rattle.std.specs.Prelude.{◌≡◌, ℕ, ◌<◌, ◌≤◌, List, true, false, Some, None};
ghost use Rattle.duct_units.specs.Rules.{first_broken};
ghost use Rattle.duct_units.specs.declared.fault.Reason.TheVariants.{FlowGiven, UnknownPreset};
ghost use Rattle.duct_definitions.specs.Tree.{Tree, IsTree, section_count, sections, is_leaf, passes};
ghost use Rattle.size_catalogue.specs.Catalogue.{Catalogue};
ghost use Rattle.project_file.specs.declared.project.Project.{Project as ProjectData};
ghost use Rattle.project_file.specs.Projects.{IsProject};
ghost use Rattle.net_build.specs.Catalogues.{Catalogues};
ghost use Rattle.net_build.specs.Joining.{joining_rules, preset_place};
ghost use Rattle.net_build.specs.Rows.{row_at};
ghost use Rattle.net_build.specs.Sections.{section_sizes};
ghost use Rattle.project_edit.specs.declared.edit.Edit.{Edit as EditData};
ghost use Rattle.edit_script.specs.declared.script.Change.{Change as ChangeData};
ghost use Rattle.edit_script.specs.declared.script.Change.TheVariants.{Airflow, Preset};
ghost use Rattle.edit_script.specs.Scripts.{IsChange};
ghost use Rattle.project_edit.specs.Edits.{edited};
ghost use Rattle.project_edit.specs.Refusals.{edit_refusal};
ghost use Rattle.project_edit.specs.Touched.{is_changed, touched_in};

/// An edit that isn't refused makes a project of a project; and where every name of the project joins something, so
/// does every name of the changed one.
pub fn an_edited_project_is_a_project()
    ensures project { (p : ProjectData) (sizes : Catalogue) (e : EditData) → IsProject p → e.section < section_count p.tree
        → IsChange e.change → edit_refusal p sizes e ≡ None → IsProject (edited p e) }
    ensures joined { (p : ProjectData) (c : Catalogues) (e : EditData) → IsProject p → e.section < section_count p.tree
        → edit_refusal p c.sizes e ≡ None → first_broken (joining_rules p c) ≡ None
        → first_broken (joining_rules (edited p e) c) ≡ None }
{}

/// Of a section that isn't changed, everything is known as before: what its losses come from, what rules are told of
/// it, its sizes and its neighbour's. Nothing beyond it is changed either.
pub fn an_untouched_section_is_as_before()
    ensures same { (p : ProjectData) (c : Catalogues) (e : EditData) (s : ℕ) → IsProject p → e.section < section_count p.tree
        → s < section_count p.tree → is_changed p.tree e.change e.section s ≡ false
        → section_sizes (edited p e) c s ≡ section_sizes p c s }
    ensures beyond { (t : Tree) (change : ChangeData) (x s y : ℕ) → IsTree t → x < section_count t → y < section_count t
        → is_changed t change x s ≡ false → passes t s y ≡ true → is_changed t change x y ≡ false }
{}

/// An airflow at a section that isn't a leaf is refused, and so is a preset that isn't in the section's list.
pub fn refusals_of_edits()
    ensures given { (p : ProjectData) (sizes : Catalogue) (x q : ℕ) → is_leaf p.tree x ≡ false
        → edit_refusal p sizes (record { section = x; change = Airflow q }) ≡ Some FlowGiven }
    ensures unknown { (p : ProjectData) (sizes : Catalogue) (x : ℕ) (name : List ℕ)
        → preset_place sizes (row_at p x).list name ≡ None
        → edit_refusal p sizes (record { section = x; change = Preset (Some name) }) ≡ Some UnknownPreset }
{}

/// Where the greatest pressure of the fans on offer is another, every section is touched.
pub fn what_is_touched()
    ensures all { (t : Tree) (e : EditData) → touched_in t e false ≡ sections t }
{}
