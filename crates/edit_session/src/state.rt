//! What a session holds beside its rules.
ghost use Rattle.std.specs.Prelude.{◌≡◌, ℕ, ◌<◌, ◌≤◌, ◌+◌, None, length, map, slice_index, IfOk, MatchResult};
ghost use Rattle.duct_units.specs.Rules.{Fails, first_broken, unless_refused};
ghost use Rattle.duct_definitions.specs.Tree.{section_count};
ghost use Rattle.project_file.specs.Projects.{IsProject};
ghost use Rattle.design_rules.specs.Meanings.{SameRules};
ghost use Rattle.net_build.specs.Catalogues.{HasFriction};
ghost use Rattle.net_build.specs.Joining.{joining_rules};
ghost use Rattle.project_edit.specs.Edits.{edited};
ghost use Rattle.project_edit.specs.Refusals.{edit_refusal};
ghost use Rattle.project_edit.specs.Touched.{touched};
ghost use Rattle.edit_session.specs.Current.{IsUpToDate, basis_of, catalogues_of};

use crate::catalogues::Catalogues;
use crate::limits::MAX_EDITS;
use crate::making::{Made, make, make_again};
use design_rules::{MAX_RULES, SizeRule};
use duct_ports::Gate;
use duct_units::{List, NoMemory, ReadError};
use project_edit::Edit;
use project_file::Project;
use std::alloc::Global;
use std::thread::Threads;

/// A project as it is now, with what is made of it.
#[derive(Drop)]
pub(crate) struct State {
    /// The project as it is now.
    pub project: Project,
    /// What its sections and fans are chosen from.
    pub catalogues: Catalogues,
    /// Its network, condensed, and the rules' counts.
    pub made: Made,
    /// How many edits were applied.
    pub edits: u32,
}

impl State {
    /// The project as it is handed in, condensed by 1 to 32 workers; or the first of its names that joins nothing.
    pub fn start<R: SizeRule, T: Threads + Sync, G: Gate>(
        rt: &T,
        alloc: Global,
        project: Project,
        catalogues: Catalogues,
        rules: &mut Vec<R>,
        workers: u32,
        gate: &G,
    ) -> Result<State, ReadError>
        requires project { IsProject project }
        requires friction { HasFriction catalogues.sizes catalogues.friction }
        requires few { length rules.old.items ≤ MAX_RULES }
        requires fresh { (i : ℕ) → slice_index (map R.count rules.old.items) i ≡ 0 }
        requires workers { (0 < workers) × (workers ≤ 32) }
        ensures current { IfOk result (λ state. IsUpToDate R.allows R.label R.count rules.new.items state) }
        ensures basis { IfOk result (λ state. basis_of state
            ≡ record { project = project; catalogues = catalogues_of catalogues; fans = catalogues.fans; edits = 0 }) }
        ensures refused { MatchResult result (λ _. first_broken (joining_rules project (catalogues_of catalogues)) ≡ None)
            (λ error. Fails error (unless_refused (first_broken (joining_rules project (catalogues_of catalogues))) project)) }
        ensures same { SameRules R.allows R.label rules.old.items rules.new.items }
    {
        let made = make(rt, alloc, &project, &catalogues, rules, workers, gate)?;
        Ok(State {
            project,
            catalogues,
            made,
            edits: 0,
        })
    }

    /// The changed project, whose touched sections alone are built and condensed again; and these, in rising number.
    pub fn after<R: SizeRule>(
        self,
        alloc: Global,
        project: Project,
        edit: &Edit,
        rules: &mut Vec<R>,
    ) -> Result<(State, List<u32>), NoMemory>
        requires current { IsUpToDate R.allows R.label R.count rules.old.items self }
        requires section { edit.now.section < section_count self.project.tree }
        requires accepted { edit_refusal self.project self.catalogues.sizes edit.now ≡ None }
        requires edited { project ≡ edited self.project edit.now }
        requires project { IsProject project }
        requires edits { self.edits < MAX_EDITS }
        ensures current { IfOk result (λ next. IsUpToDate R.allows R.label R.count rules.new.items next.0) }
        ensures basis { IfOk result (λ next. basis_of next.0
            ≡ record { project = project; catalogues = catalogues_of self.catalogues; fans = self.catalogues.fans; edits = self.edits + 1 }) }
        ensures touched { IfOk result (λ next. next.1 ≡ touched self.project self.catalogues.fans edit.now) }
        ensures same { SameRules R.allows R.label rules.old.items rules.new.items }
    {
        let State {
            project: before,
            catalogues,
            made,
            edits,
        } = self;
        let (made, touched) = make_again(alloc, &before, &project, &catalogues, made, edit, rules)?;
        let state = State {
            project,
            catalogues,
            made,
            edits: edits + 1,
        };
        Ok((state, touched))
    }
}
