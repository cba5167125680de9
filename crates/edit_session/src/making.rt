//! What is made of a project: its network with exact fronts, and the rules' counts; from scratch, or anew after an
//! edit.
ghost use Rattle.std.specs.Prelude.{◌≡◌, ℕ, ◌<◌, ◌-◌, ◌≤◌, ◌==◌, None, length, map, slice_index, All, IfOk, MatchResult};
ghost use Rattle.duct_units.specs.Rules.{Fails, first_broken, unless_refused};
ghost use Rattle.duct_definitions.specs.Airflow.{fan_flow};
ghost use Rattle.duct_definitions.specs.Network.{AreFans, cap, greatest_pressure};
ghost use Rattle.duct_definitions.specs.Tree.{sections};
ghost use Rattle.project_file.specs.Projects.{IsProject};
ghost use Rattle.net_build.specs.Asking.{Asked};
ghost use Rattle.net_build.specs.Built.{network_of};
ghost use Rattle.net_build.specs.Catalogues.{HasFriction};
ghost use Rattle.net_build.specs.Fans.{offered};
ghost use Rattle.net_build.specs.Joining.{joining_rules};
ghost use Rattle.net_build.specs.Refusals.{section_refusals, CountsWithin};
ghost use Rattle.project_edit.specs.Touched.{is_cap_kept as keeps_cap, touched};
ghost use Rattle.edit_session.specs.Current.{IsEdited, IsMadeOf, catalogues_of};

use crate::catalogues::Catalogues;
use crate::condensing::Condensed;
use crate::rebuilding::rebuilt;
use contract_join::laws::fronts_stay_exact;
use design_rules::{MAX_RULES, SizeRule};
use duct_definitions::NetFan;
use duct_ports::Gate;
use duct_units::{List, NoMemory, ReadError};
use net_build::{MAX_ASKED, MAX_SECTION_ASKED, Refusals, build_by_section, count_together, offer};
use net_model::{Network, greatest_pressure};
use project_edit::{Edit, touched};
use project_file::Project;
use std::alloc::Global;
use std::thread::Threads;

/// What is made of a project under the rules.
#[derive(Drop)]
pub(crate) struct Made {
    /// Its network, with the fronts of the sections and the best design.
    pub condensed: Condensed,
    /// How many pairs of each section each rule refused.
    pub counts: List<Refusals>,
    /// How many pairs of all sections each rule refused.
    pub refusals: Refusals,
}

/// What is made of the project from scratch, by 1 to 32 workers; or the first of its names that joins nothing.
pub(crate) fn make<R: SizeRule, T: Threads + Sync, G: Gate>(
    rt: &T,
    alloc: Global,
    project: &Project,
    catalogues: &Catalogues,
    rules: &mut Vec<R>,
    workers: u32,
    gate: &G,
) -> Result<Made, ReadError>
    requires project { IsProject project.now }
    requires friction { HasFriction catalogues.now.sizes catalogues.now.friction }
    requires few { length rules.old.items ≤ MAX_RULES }
    requires room { (i : ℕ) → slice_index (map R.count rules.old.items) i ≤ u64.MAX - MAX_ASKED }
    requires workers { (0 < workers) × (workers ≤ 32) }
    ensures made { IfOk result (IsMadeOf project.now (catalogues_of catalogues.now) catalogues.now.fans
        (map R.allows rules.old.items) (map R.label rules.old.items)) }
    ensures refused { MatchResult result (λ _. first_broken (joining_rules project.now (catalogues_of catalogues.now)) ≡ None)
        (λ error. Fails error (unless_refused (first_broken (joining_rules project.now (catalogues_of catalogues.now))) project.now)) }
    ensures asked { Asked R.allows R.label R.count MAX_ASKED rules.old.items rules.new.items }
{
    let (net, counts) = build_by_section(
        alloc,
        project,
        &catalogues.sizes,
        &catalogues.friction,
        &catalogues.fittings,
        &catalogues.fans,
        rules,
    )?;
    let refusals = count_together(alloc, rules, counts.as_slice())?;
    let condensed = Condensed::new(rt, alloc, net, workers, gate)?;
    Ok(Made {
        condensed,
        counts,
        refusals,
    })
}

/// What is made of the project after the edit, whose touched sections alone are built and condensed again; and these,
/// in rising number.
pub(crate) fn make_again<R: SizeRule>(
    alloc: Global,
    before: &Project,
    project: &Project,
    catalogues: &Catalogues,
    made: Made,
    edit: &Edit,
    rules: &mut Vec<R>,
) -> Result<(Made, List<u32>), NoMemory>
    requires edited { IsEdited before.now project.now (catalogues_of catalogues.now) edit.now }
    requires project { IsProject project.now }
    requires friction { HasFriction catalogues.now.sizes catalogues.now.friction }
    requires made { IsMadeOf before.now (catalogues_of catalogues.now) catalogues.now.fans
        (map R.allows rules.old.items) (map R.label rules.old.items) made }
    requires few { length rules.old.items ≤ MAX_RULES }
    requires room { (i : ℕ) → slice_index (map R.count rules.old.items) i ≤ u64.MAX - MAX_ASKED }
    ensures made { IfOk result (λ again. IsMadeOf project.now (catalogues_of catalogues.now) catalogues.now.fans
        (map R.allows rules.old.items) (map R.label rules.old.items) again.0) }
    ensures touched { IfOk result (λ again. again.1 ≡ touched before.now catalogues.now.fans edit.now) }
    ensures asked { Asked R.allows R.label R.count MAX_ASKED rules.old.items rules.new.items }
{
    let fans = offer(
        alloc,
        &catalogues.fans,
        &project.energy,
        project.flows.fan_flow(),
    )?;
    let is_cap_kept = greatest_pressure(fans.as_slice()) == made.condensed.network().cap();
    let touched = touched(alloc, &before.tree, edit, is_cap_kept)?;
    let (condensed, counts) = condensed_again(
        alloc,
        before,
        project,
        catalogues,
        made,
        fans,
        edit,
        is_cap_kept,
        rules,
    )?;
    let refusals = count_together(alloc, rules, counts.as_slice())?;
    let made = Made {
        condensed,
        counts,
        refusals,
    };
    Ok((made, touched))
}

/// The network of the project after the edit, condensed, and the rules' counts in each section.
fn condensed_again<R: SizeRule>(
    alloc: Global,
    before: &Project,
    project: &Project,
    catalogues: &Catalogues,
    made: Made,
    fans: List<NetFan>,
    edit: &Edit,
    is_cap_kept: bool,
    rules: &mut Vec<R>,
) -> Result<(Condensed, List<Refusals>), NoMemory>
    requires edited { IsEdited before.now project.now (catalogues_of catalogues.now) edit.now }
    requires project { IsProject project.now }
    requires friction { HasFriction catalogues.now.sizes catalogues.now.friction }
    requires made { IsMadeOf before.now (catalogues_of catalogues.now) catalogues.now.fans
        (map R.allows rules.old.items) (map R.label rules.old.items) made }
    requires offer { fans ≡ offered catalogues.now.fans project.now.energy (fan_flow project.now.flows) }
    requires fans { AreFans fans }
    requires cap { is_cap_kept ≡ keeps_cap before.now catalogues.now.fans edit.now }
    requires few { length rules.old.items ≤ MAX_RULES }
    requires room { (i : ℕ) → slice_index (map R.count rules.old.items) i ≤ u64.MAX - MAX_ASKED }
    ensures network { IfOk result (λ again. again.0.net
        ≡ network_of project.now (catalogues_of catalogues.now) catalogues.now.fans (map R.allows rules.old.items)) }
    ensures counts { IfOk result (λ again. again.1
        ≡ map (section_refusals project.now (catalogues_of catalogues.now) (map R.allows rules.old.items) (map R.label rules.old.items))
        (sections project.now.tree)) }
    ensures most { IfOk result (λ again. All (CountsWithin MAX_SECTION_ASKED) again.1) }
    ensures asked { Asked R.allows R.label R.count MAX_ASKED rules.old.items rules.new.items }
{
    let Made {
        condensed,
        counts,
        refusals: _,
    } = made;
    let (net, kept) = condensed.into_parts();
    let (net, counts) = rebuilt(
        alloc,
        project,
        catalogues,
        net,
        counts,
        fans,
        edit,
        is_cap_kept,
        rules,
    )?;
    fronts_stay_exact();
    let condensed = Condensed::again(alloc, net, kept, edit, is_cap_kept)?;
    Ok((condensed, counts))
}
