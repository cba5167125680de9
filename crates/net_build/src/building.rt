//! The network of a project.
ghost use Rattle.std.specs.Prelude.{◌≡◌, ℕ, ◌≤◌, ◌<◌, ◌-◌, ◌+◌, length, map, All, IfOk, slice_index};
ghost use Rattle.duct_units.specs.Rules.{Gives};
ghost use Rattle.design_rules.specs.Meanings.{SameRules};
ghost use Rattle.project_file.specs.Projects.{IsProject};
ghost use Rattle.duct_definitions.specs.Network.{IsNetwork};
ghost use Rattle.duct_definitions.specs.Tree.{sections as tree_sections};
ghost use Rattle.net_build.specs.Catalogues.{Catalogues as CataloguesData, HasFriction};
ghost use Rattle.net_build.specs.Asking.{IsOpen, Asked};
ghost use Rattle.net_build.specs.Built.{built, built_by_section, names_of_numbers, with_pairs_and_fans};
ghost use Rattle.net_build.specs.Refusals.{CountsWithin};
ghost use Rattle.net_build.specs.Sections.{section_sizes};

use crate::by_section::{Refusals, all_built, count_together};
use crate::catalogues::Catalogues;
use crate::limits::{MAX_ASKED, MAX_SECTION_ASKED};
use crate::offering::offer;
use crate::sections::{SectionSizes, all_sections};
use design_rules::{MAX_RULES, SizeRule};
use duct_definitions::{MAX_SECTIONS, NetFan, Pair};
use duct_units::{List, Name, NoMemory, ReadError};
use fan_points::Fans;
use fitting_tables::Fittings;
use friction_table::Friction;
use net_model::Network;
use project_file::{Project, SectionRow};
use size_catalogue::{Sizes, sizes_are_a_catalogue};
use std::alloc::Global;

/// The network of the project by its catalogues and the rules, with the rules' counts; or the first name that joins
/// nothing: section by section its list, the fitting table of its junction and its preset. A rule is asked only where a
/// size has friction. The rules are handed back, and may be asked again.
pub fn build_with<R: SizeRule>(
    alloc: Global,
    project: &Project,
    sizes: &Sizes,
    friction: &Friction,
    fittings: &Fittings,
    fans: &Fans,
    rules: &mut Vec<R>,
) -> Result<(Network, Refusals), ReadError>
    requires project { IsProject project.now }
    requires friction { HasFriction sizes.now friction.now }
    requires few { length rules.old.items ≤ MAX_RULES }
    requires room { (i : ℕ) → slice_index (map R.count rules.old.items) i ≤ u64.MAX - MAX_ASKED }
    ensures value { let c : CataloguesData = record { sizes = sizes.now; friction = friction.now; fittings = fittings.now } in
        Gives result (built project.now c fans.now (map R.allows rules.old.items) (map R.label rules.old.items)) }
    ensures same { SameRules R.allows R.label rules.old.items rules.new.items }
    ensures risen { (i : ℕ) → slice_index (map R.count rules.new.items) i ≤ slice_index (map R.count rules.old.items) i + MAX_ASKED }
{
    let (net, refusals) = build_by_section(alloc, project, sizes, friction, fittings, fans, rules)?;
    Ok((net, count_together(alloc, rules, refusals.as_slice())?))
}

/// The same with the rules' counts in each section.
pub fn build_by_section<R: SizeRule>(
    alloc: Global,
    project: &Project,
    sizes: &Sizes,
    friction: &Friction,
    fittings: &Fittings,
    fans: &Fans,
    rules: &mut Vec<R>,
) -> Result<(Network, List<Refusals>), ReadError>
    requires project { IsProject project.now }
    requires friction { HasFriction sizes.now friction.now }
    requires few { length rules.old.items ≤ MAX_RULES }
    requires room { (i : ℕ) → slice_index (map R.count rules.old.items) i ≤ u64.MAX - MAX_ASKED }
    ensures value { let c : CataloguesData = record { sizes = sizes.now; friction = friction.now; fittings = fittings.now } in
        Gives result (built_by_section project.now c fans.now (map R.allows rules.old.items) (map R.label rules.old.items)) }
    ensures count { IfOk result (λ built. length built.1 ≤ MAX_SECTIONS) }
    ensures most { IfOk result (λ built. All (CountsWithin MAX_SECTION_ASKED) built.1) }
    ensures asked { Asked R.allows R.label R.count MAX_ASKED rules.old.items rules.new.items }
{
    sizes_are_a_catalogue(sizes);
    let catalogues = Catalogues::new(sizes, friction, fittings);
    let sections = all_sections(alloc, project, &catalogues)?;
    let (pairs, refusals) = all_built(alloc, &catalogues, sections.as_slice(), rules)?;
    let fans = offer(alloc, fans, &project.energy, project.flows.fan_flow())?;
    let net = network(
        alloc,
        project,
        &catalogues,
        sections.as_slice(),
        pairs,
        fans,
    )?;
    Ok((net, refusals))
}

/// The same for rules that are handed in and have refused nothing yet. They are dropped before the call returns.
pub fn build<R: SizeRule>(
    alloc: Global,
    project: &Project,
    sizes: &Sizes,
    friction: &Friction,
    fittings: &Fittings,
    fans: &Fans,
    rules: Vec<R>,
) -> Result<(Network, Refusals), ReadError>
    requires project { IsProject project.now }
    requires friction { HasFriction sizes.now friction.now }
    requires few { length rules.items ≤ MAX_RULES }
    requires fresh { (i : ℕ) → slice_index (map R.count rules.items) i ≡ 0 }
    ensures { let c : CataloguesData = record { sizes = sizes.now; friction = friction.now; fittings = fittings.now } in
        Gives result (built project.now c fans.now (map R.allows rules.items) (map R.label rules.items)) }
{
    let mut kept = rules;
    build_with(alloc, project, sizes, friction, fittings, fans, &mut kept)
}

/// The network of these sections, pairs and fans.
fn network(
    alloc: Global,
    project: &Project,
    catalogues: &Catalogues<'_>,
    sections: &[SectionSizes],
    pairs: List<List<Option<Pair>>>,
    fans: List<NetFan>,
) -> Result<Network, NoMemory>
    requires sections { sections.now ≡ map (section_sizes project.now catalogues.now) (tree_sections project.now.tree) }
    requires open { All (IsOpen catalogues.now) sections.now }
    requires network { IsNetwork (with_pairs_and_fans project.now catalogues.now pairs fans) }
    ensures { IfOk result (λ net. net ≡ with_pairs_and_fans project.now catalogues.now pairs fans) }
{
    Ok(Network::new(
        project.name,
        project.tree.copy(alloc)?,
        section_names(alloc, project.sections.as_slice())?,
        all_size_names(alloc, catalogues, sections)?,
        pairs,
        fans,
    ))
}

/// The names of the sections, in order.
fn section_names(alloc: Global, rows: &[SectionRow]) -> Result<List<Name>, NoMemory>
    ensures { IfOk result (λ names. names ≡ map (λ row. row.name) rows.now) }
{
    let mut names = Vec::new(alloc);
    for row in rows {
        names.push(row.name)?;
    }
    Ok(List::from_vec(names))
}

/// The names of the sizes that each section may have.
fn all_size_names(
    alloc: Global,
    catalogues: &Catalogues<'_>,
    sections: &[SectionSizes],
) -> Result<List<List<Name>>, NoMemory>
    requires { All (IsOpen catalogues.now) sections.now }
    ensures { IfOk result (λ names. names ≡ map (λ section. names_of_numbers catalogues.now section.numbers) sections.now) }
{
    let mut names = Vec::new(alloc);
    for section in sections {
        names.push(size_names(alloc, catalogues, section.numbers.as_slice())?)?;
    }
    Ok(List::from_vec(names))
}

/// The names of the sizes with these numbers.
fn size_names(
    alloc: Global,
    catalogues: &Catalogues<'_>,
    numbers: &[u32],
) -> Result<List<Name>, NoMemory>
    requires { All (λ n. n < length catalogues.now.sizes.sizes) numbers.now }
    ensures { IfOk result (λ names. names ≡ names_of_numbers catalogues.now numbers.now) }
{
    let mut names = Vec::new(alloc);
    for number in numbers {
        names.push(catalogues.size(*number).name)?;
    }
    Ok(List::from_vec(names))
}
