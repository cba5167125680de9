//! A session of edits.
ghost use Rattle.std.specs.Prelude.{◌≡◌, ℕ, ◌<◌, ◌≤◌, ◌+◌, Some, None, length, map, slice_index, option_map, option_copied, IfOk, IfSome, IfNone, OnOk, MatchResult};
ghost use Rattle.duct_units.specs.Rules.{Fails, first_broken, unless_refused};
ghost use Rattle.duct_definitions.specs.Order.{IsBest, NoneMeets};
ghost use Rattle.duct_definitions.specs.Tree.{section_count};
ghost use Rattle.project_file.specs.Projects.{IsProject};
ghost use Rattle.design_rules.specs.Meanings.{SameRules};
ghost use Rattle.net_build.specs.Built.{network_of};
ghost use Rattle.net_build.specs.Catalogues.{Catalogues as CataloguesData, HasFriction};
ghost use Rattle.net_build.specs.Joining.{joining_rules};
ghost use Rattle.net_build.specs.Refusals.{refusals};
ghost use Rattle.edit_script.specs.Scripts.{IsChange};
ghost use Rattle.project_edit.specs.Edits.{edited};
ghost use Rattle.project_edit.specs.Refusals.{Edits, edit_refusal};
ghost use Rattle.project_edit.specs.Touched.{touched};
ghost use Rattle.edit_session.specs.Current.{IsCurrent, AfterRefusal, after, basis};

use crate::catalogues::Catalogues;
use crate::limits::MAX_EDITS;
use crate::state::State;
use design_rules::{MAX_RULES, SizeRule};
use duct_definitions::Design;
use duct_ports::Gate;
use duct_units::{List, ReadError};
use fan_points::Fans;
use fitting_tables::Fittings;
use friction_table::Friction;
use net_build::Refusals;
use net_model::Network;
use project_edit::{Edit, EditError, edited};
use project_file::Project;
use size_catalogue::Sizes;
use std::alloc::Global;
use std::thread::Threads;

/// A project under edits, with the rules of sizes that it is designed by.
///
/// No type can hold what rules mean, so that a session is up to date is a fact of its own, `IsCurrent`: `start` and
/// `apply` give it, and each other call asks for it.
#[derive(Drop)]
pub struct Session<R> {
    rules: Vec<R>,
    /// What it holds beside the rules; None once memory ran out.
    state: Option<State>,
}

impl<R: SizeRule> Session<R> {
    /// Builds and condenses the project, by 1 to 32 workers; or refuses the first of its names that joins nothing.
    pub fn start<T: Threads + Sync, G: Gate>(
        rt: &T,
        alloc: Global,
        project: Project,
        sizes: Sizes,
        friction: Friction,
        fittings: Fittings,
        fans: Fans,
        rules: Vec<R>,
        workers: u32,
        gate: &G,
    ) -> Result<Session<R>, ReadError>
        requires project { IsProject project }
        requires friction { HasFriction sizes friction }
        requires few { length rules.items ≤ MAX_RULES }
        requires fresh { (i : ℕ) → slice_index (map R.count rules.items) i ≡ 0 }
        requires workers { (0 < workers) × (workers ≤ 32) }
        ensures current { IfOk result (λ session. IsCurrent R.allows R.label R.count session.rules.items session.state) }
        ensures basis { let c : CataloguesData = record { sizes = sizes; friction = friction; fittings = fittings } in
            IfOk result (λ session. basis session.state ≡ Some (record { project = project; catalogues = c; fans = fans; edits = 0 })) }
        ensures refused { let c : CataloguesData = record { sizes = sizes; friction = friction; fittings = fittings } in
            MatchResult result (λ _. first_broken (joining_rules project c) ≡ None)
            (λ error. Fails error (unless_refused (first_broken (joining_rules project c)) project)) }
        ensures same { IfOk result (λ session. SameRules R.allows R.label rules.items session.rules.items) }
    {
        let mut rules = rules;
        let catalogues = Catalogues {
            sizes,
            friction,
            fittings,
            fans,
        };
        let state = State::start(rt, alloc, project, catalogues, &mut rules, workers, gate)?;
        Ok(Session {
            rules,
            state: Some(state),
        })
    }

    /// Applies the edit, and answers the sections that it touches, in rising number: those that were condensed again.
    /// After a refusal the session is as it was. After want of memory it can only be dropped.
    pub fn apply(&mut self, alloc: Global, edit: &Edit) -> Result<List<u32>, EditError>
        requires current { IsCurrent R.allows R.label R.count self.old.rules.items self.old.state }
        requires section { IfSome (basis self.old.state) (λ now. edit.now.section < section_count now.project.tree) }
        requires change { IsChange edit.now.change }
        requires edits { IfSome (basis self.old.state) (λ now. now.edits < MAX_EDITS) }
        ensures value { IfSome (basis self.old.state) (λ now.
            Edits result (edit_refusal now.project now.catalogues.sizes edit.now) (touched now.project now.fans edit.now)) }
        ensures basis { OnOk result (basis self.new.state ≡ option_map (after edit.now) (basis self.old.state)) }
        ensures current { OnOk result (IsCurrent R.allows R.label R.count self.new.rules.items self.new.state) }
        ensures kept { AfterRefusal result (self.new ≡ self.old) }
        ensures same { SameRules R.allows R.label self.old.rules.items self.new.rules.items }
    {
        let project = changed(alloc, &self.state, edit)?;
        let Some(state) = self.state.take() else {
            return Err(EditError::NoMemory);
        };
        let (state, touched) = state.after(alloc, project, edit, &mut self.rules)?;
        self.state = Some(state);
        Ok(touched)
    }

    /// The network of the project as it is now, under the rules.
    pub fn network(&self) -> &Network
        requires { IsCurrent R.allows R.label R.count self.now.rules.items self.now.state }
        ensures { IfSome (basis self.now.state) (λ now.
            result.now ≡ network_of now.project now.catalogues now.fans (map R.allows self.now.rules.items)) }
    {
        self.state().made.condensed.network()
    }

    /// How many pairs of sizes of the project as it is now each rule refuses first.
    pub fn refusals(&self) -> &Refusals
        requires { IsCurrent R.allows R.label R.count self.now.rules.items self.now.state }
        ensures { IfSome (basis self.now.state) (λ now. result.now
            ≡ refusals now.project now.catalogues (map R.allows self.now.rules.items) (map R.label self.now.rules.items)) }
    {
        &self.state().made.refusals
    }

    /// How many edits were applied.
    pub fn edits(&self) -> u32
        requires { IsCurrent R.allows R.label R.count self.now.rules.items self.now.state }
        ensures { IfSome (basis self.now.state) (λ now. result ≡ now.edits) }
    {
        self.state().edits
    }

    /// The best design of the project as it is now; None exactly where no design meets the rules.
    pub fn best(&self) -> Option<&Design>
        requires { IsCurrent R.allows R.label R.count self.now.rules.items self.now.state }
        ensures some { IfSome (basis self.now.state) (λ now. IfSome (option_copied result)
            (IsBest (network_of now.project now.catalogues now.fans (map R.allows self.now.rules.items)))) }
        ensures none { IfSome (basis self.now.state) (λ now. IfNone (option_copied result)
            (NoneMeets (network_of now.project now.catalogues now.fans (map R.allows self.now.rules.items)))) }
    {
        self.state().made.condensed.best()
    }

    /// What the session holds beside the rules.
    fn state(&self) -> &State
        requires { IsCurrent R.allows R.label R.count self.now.rules.items self.now.state }
        ensures { self.now.state ≡ Some result.now }
    {
        match &self.state {
            Some(state) => state,
            None => unreachable!(),
        }
    }
}

/// The project of the state after the edit.
fn changed(alloc: Global, state: &Option<State>, edit: &Edit) -> Result<Project, EditError>
    requires project { IfSome state.now (λ s. IsProject s.project) }
    requires section { IfSome (basis state.now) (λ now. edit.now.section < section_count now.project.tree) }
    requires change { IsChange edit.now.change }
    ensures value { IfSome (basis state.now) (λ now.
        Edits result (edit_refusal now.project now.catalogues.sizes edit.now) (edited now.project edit.now)) }
    ensures project { IfOk result IsProject }
{
    match state {
        Some(state) => edited(alloc, &state.project, &state.catalogues.sizes, edit),
        None => Err(EditError::NoMemory),
    }
}
