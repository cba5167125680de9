//! The network of a changed project, whose touched sections alone are built again.
ghost use Rattle.std.specs.Prelude.{◌≡◌, ℕ, ◌<◌, ◌-◌, ◌≤◌, None, length, map, slice_index, All, IfOk};
ghost use Rattle.duct_units.specs.Rules.{first_broken};
ghost use Rattle.duct_definitions.specs.Airflow.{fan_flow};
ghost use Rattle.duct_definitions.specs.Network.{AreFans, IsBounded};
ghost use Rattle.duct_definitions.specs.Tree.{section_count, sections};
ghost use Rattle.project_file.specs.Projects.{IsProject};
ghost use Rattle.net_build.specs.Asking.{Asked};
ghost use Rattle.net_build.specs.Built.{network_of, section_pairs};
ghost use Rattle.net_build.specs.Catalogues.{HasFriction};
ghost use Rattle.net_build.specs.Fans.{offered};
ghost use Rattle.net_build.specs.Joining.{joining_rules};
ghost use Rattle.net_build.specs.Refusals.{section_refusals, CountsWithin};
ghost use Rattle.project_edit.specs.Touched.{is_touched};
ghost use Rattle.edit_session.specs.Current.{catalogues_of};
ghost use Rattle.edit_session.specs.Rebuilt.{IsBuiltBut, AreMadeBut};

use crate::catalogues::Catalogues;
use design_rules::{MAX_RULES, SizeRule};
use duct_definitions::{NetFan, Pair};
use duct_units::{List, NoMemory, ReadError};
use net_build::{BuiltSection, MAX_ASKED, MAX_SECTION_ASKED, Refusals, build_section};
use net_model::Network;
use project_edit::{Edit, is_touched};
use project_file::Project;
use size_catalogue::sizes_are_a_catalogue;
use std::alloc::Global;

/// The network of the project and the rules' counts in each section, from a network and counts that are the project's
/// but for touched sections.
pub(crate) fn rebuilt<R: SizeRule>(
    alloc: Global,
    project: &Project,
    catalogues: &Catalogues,
    net: Network,
    counts: List<Refusals>,
    fans: List<NetFan>,
    edit: &Edit,
    is_cap_kept: bool,
    rules: &mut Vec<R>,
) -> Result<(Network, List<Refusals>), NoMemory>
    requires project { IsProject project.now }
    requires friction { HasFriction catalogues.now.sizes catalogues.now.friction }
    requires joined { first_broken (joining_rules project.now (catalogues_of catalogues.now)) ≡ None }
    requires section { edit.now.section < section_count project.now.tree }
    requires built { IsBuiltBut project.now (catalogues_of catalogues.now) (map R.allows rules.old.items) (map R.label rules.old.items)
        (is_touched project.now.tree edit.now is_cap_kept) net counts }
    requires offer { fans ≡ offered catalogues.now.fans project.now.energy (fan_flow project.now.flows) }
    requires fans { AreFans fans }
    requires few { length rules.old.items ≤ MAX_RULES }
    requires room { (i : ℕ) → slice_index (map R.count rules.old.items) i ≤ u64.MAX - MAX_ASKED }
    ensures network { IfOk result (λ built. built.0
        ≡ network_of project.now (catalogues_of catalogues.now) catalogues.now.fans (map R.allows rules.old.items)) }
    ensures counts { IfOk result (λ built. built.1
        ≡ map (section_refusals project.now (catalogues_of catalogues.now) (map R.allows rules.old.items) (map R.label rules.old.items))
        (sections project.now.tree)) }
    ensures most { IfOk result (λ built. All (CountsWithin MAX_SECTION_ASKED) built.1) }
    ensures asked { Asked R.allows R.label R.count MAX_ASKED rules.old.items rules.new.items }
{
    sizes_are_a_catalogue(&catalogues.sizes);
    let parts = net.into_parts();
    let (pairs, counts) = pairs_again(
        alloc,
        project,
        catalogues,
        parts.pairs,
        counts,
        edit,
        is_cap_kept,
        rules,
    )?;
    let net = Network::new(
        parts.name,
        parts.tree,
        parts.names,
        parts.sizes,
        pairs,
        fans,
    );
    Ok((net, counts))
}

/// The pairs of all sections and the rules' counts in each, from those of the sections that aren't touched.
fn pairs_again<R: SizeRule>(
    alloc: Global,
    project: &Project,
    catalogues: &Catalogues,
    pairs: List<List<Option<Pair>>>,
    counts: List<Refusals>,
    edit: &Edit,
    is_cap_kept: bool,
    rules: &mut Vec<R>,
) -> Result<(List<List<Option<Pair>>>, List<Refusals>), NoMemory>
    requires project { IsProject project.now }
    requires friction { HasFriction catalogues.now.sizes catalogues.now.friction }
    requires joined { first_broken (joining_rules project.now (catalogues_of catalogues.now)) ≡ None }
    requires section { edit.now.section < section_count project.now.tree }
    requires pairs { AreMadeBut (section_pairs project.now (catalogues_of catalogues.now) (map R.allows rules.old.items))
        (is_touched project.now.tree edit.now is_cap_kept) (section_count project.now.tree) pairs }
    requires counts { AreMadeBut (section_refusals project.now (catalogues_of catalogues.now) (map R.allows rules.old.items) (map R.label rules.old.items))
        (is_touched project.now.tree edit.now is_cap_kept) (section_count project.now.tree) counts }
    requires bounds { All (All IsBounded) pairs }
    requires most { All (CountsWithin MAX_SECTION_ASKED) counts }
    requires few { length rules.old.items ≤ MAX_RULES }
    requires room { (i : ℕ) → slice_index (map R.count rules.old.items) i ≤ u64.MAX - MAX_ASKED }
    ensures pairs { IfOk result (λ made. made.0
        ≡ map (section_pairs project.now (catalogues_of catalogues.now) (map R.allows rules.old.items)) (sections project.now.tree)) }
    ensures counts { IfOk result (λ made. made.1
        ≡ map (section_refusals project.now (catalogues_of catalogues.now) (map R.allows rules.old.items) (map R.label rules.old.items))
        (sections project.now.tree)) }
    ensures bounds { IfOk result (λ made. All (All IsBounded) made.0) }
    ensures most { IfOk result (λ made. All (CountsWithin MAX_SECTION_ASKED) made.1) }
    ensures asked { Asked R.allows R.label R.count MAX_ASKED rules.old.items rules.new.items }
{
    let mut pairs = pairs.into_vec();
    let mut counts = counts.into_vec();
    for s in 0..project.tree.len() {
        if !is_touched(&project.tree, edit, is_cap_kept, s) {
            continue;
        }
        let built = section_again(alloc, project, catalogues, s, rules)?;
        pairs[s as usize] = built.pairs;
        counts[s as usize] = built.refusals;
    }
    Ok((List::from_vec(pairs), List::from_vec(counts)))
}

/// The pairs of section `s` and the rules' counts in it.
fn section_again<R: SizeRule>(
    alloc: Global,
    project: &Project,
    catalogues: &Catalogues,
    s: u32,
    rules: &mut Vec<R>,
) -> Result<BuiltSection, NoMemory>
    requires project { IsProject project.now }
    requires friction { HasFriction catalogues.now.sizes catalogues.now.friction }
    requires joined { first_broken (joining_rules project.now (catalogues_of catalogues.now)) ≡ None }
    requires section { s < section_count project.now.tree }
    requires few { length rules.old.items ≤ MAX_RULES }
    requires room { (i : ℕ) → slice_index (map R.count rules.old.items) i ≤ u64.MAX - MAX_SECTION_ASKED }
    ensures pairs { IfOk result (λ built. built.pairs ≡ section_pairs project.now (catalogues_of catalogues.now) (map R.allows rules.old.items) s) }
    ensures refusals { IfOk result (λ built. built.refusals
        ≡ section_refusals project.now (catalogues_of catalogues.now) (map R.allows rules.old.items) (map R.label rules.old.items) s) }
    ensures bounds { IfOk result (λ built. All IsBounded built.pairs) }
    ensures most { IfOk result (λ built. CountsWithin MAX_SECTION_ASKED built.refusals) }
    ensures asked { Asked R.allows R.label R.count MAX_SECTION_ASKED rules.old.items rules.new.items }
{
    match build_section(
        alloc,
        project,
        &catalogues.sizes,
        &catalogues.friction,
        &catalogues.fittings,
        s,
        rules,
    ) {
        Ok(built) => Ok(built),
        Err(ReadError::NoMemory) => Err(NoMemory),
        // Every name of the project joins something.
        Err(ReadError::Refused(_)) => unreachable!(),
    }
}
