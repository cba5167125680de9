//! What is found of each section before any rule is asked.
ghost use Rattle.std.specs.Prelude.{◌≡◌, ◌+◌, ◌<◌, ◌≤◌, length, map, All, Some, IfSome, IfOk};
ghost use Rattle.std.specs.Option.{ForSome};
ghost use Rattle.duct_units.specs.Rules.{Gives, first_broken, unless_refused};
ghost use Rattle.duct_definitions.specs.Tree.{section_count, sections, neighbour, at_neighbour};
ghost use Rattle.project_file.specs.Projects.{IsProject};
ghost use Rattle.section_loss.specs.Facts.{IsFacts, IsJoined};
ghost use Rattle.size_catalogue.specs.declared.limits.TheConstants.{MAX_LIST_SIZES};
ghost use Rattle.net_build.specs.Catalogues.{numbers_named};
ghost use Rattle.net_build.specs.Joining.{joining_rules, rules_of_row, rules_of_section, table_of_row, preset_of_row};
ghost use Rattle.net_build.specs.Rows.{row_at};
ghost use Rattle.net_build.specs.Sections.{flow_at, section_facts, told_of_any, besides, numbers_at, section_sizes};
ghost use Rattle.net_build.specs.Asking.{IsOpen};

use crate::catalogues::Catalogues;
use design_rules::PairFacts;
use duct_units::{Fault, List, NoMemory, ReadError, Reason};
use project_file::{Project, SectionRow};
use section_loss::SectionFacts;
use std::alloc::Global;

/// A section and the sizes that it may have.
#[derive(Drop)]
pub(crate) struct SectionSizes {
    /// What its losses come from.
    pub facts: SectionFacts,
    /// What rules are told of it whatever its size; what they are told of sizes is 0 here.
    pub told: PairFacts,
    /// The numbers of its sizes in the catalogue.
    pub numbers: List<u32>,
    /// The numbers of the sizes that may stand beside it; None alone at the fan.
    pub besides: List<Option<u32>>,
}

/// All sections of the project, or the first name that joins nothing.
pub(crate) fn all_sections(
    alloc: Global,
    project: &Project,
    catalogues: &Catalogues<'_>,
) -> Result<List<SectionSizes>, ReadError>
    requires { IsProject project.now }
    ensures value { Gives result (unless_refused (first_broken (joining_rules project.now catalogues.now))
        (map (section_sizes project.now catalogues.now) (sections project.now.tree))) }
    ensures open { IfOk result (All (IsOpen catalogues.now)) }
{
    let mut sections = Vec::new(alloc);
    for s in 0..project.tree.len() {
        sections.push(section_sizes(alloc, project, catalogues, s)?)?;
    }
    Ok(List::from_vec(sections))
}

/// Section `s`, or the first of its names that joins nothing.
pub(crate) fn section_sizes(
    alloc: Global,
    project: &Project,
    catalogues: &Catalogues<'_>,
    s: u32,
) -> Result<SectionSizes, ReadError>
    requires project { IsProject project.now }
    requires section { s < section_count project.now.tree }
    ensures value { Gives result (unless_refused (first_broken (rules_of_section project.now catalogues.now s))
        (section_sizes project.now catalogues.now s)) }
    ensures open { IfOk result (IsOpen catalogues.now) }
{
    let row = project.sections.as_slice()[s as usize];
    let numbers = catalogues.numbers_named(alloc, &row.list)?;
    let table = table_of(catalogues, &row);
    let preset = preset_of(catalogues, &row, numbers.as_slice());
    if let Some(fault) = broken_rule(catalogues, s + 1, &row, table, preset) {
        return Err(ReadError::Refused(fault));
    }
    Ok(SectionSizes {
        facts: section_facts(project, catalogues, &row, s, table),
        told: told_of_any(project, catalogues, &row, s, preset),
        numbers,
        besides: besides(alloc, project, catalogues, s)?,
    })
}

/// The number of the fitting table of the section's junction.
fn table_of(catalogues: &Catalogues<'_>, row: &SectionRow) -> Option<u32>
    ensures value { result ≡ table_of_row catalogues.now row.now }
    ensures within { IfSome result (λ table. table < length catalogues.now.fittings.grids) }
{
    let name = row.junction?;
    catalogues.table(&name)
}

/// The place, in the section's list, of the size that it presets.
fn preset_of(catalogues: &Catalogues<'_>, row: &SectionRow, numbers: &[u32]) -> Option<u32>
    requires list { numbers.now ≡ numbers_named catalogues.now.sizes row.now.list }
    requires few { length numbers.now ≤ MAX_LIST_SIZES }
    ensures { result ≡ preset_of_row catalogues.now row.now }
{
    let name = row.preset?;
    catalogues.place(numbers, &name)
}

/// The fault of the first name of section n, counted from 1, that joins nothing.
fn broken_rule(
    catalogues: &Catalogues<'_>,
    n: u32,
    row: &SectionRow,
    table: Option<u32>,
    preset: Option<u32>,
) -> Option<Fault>
    requires table { table ≡ table_of_row catalogues.now row.now }
    requires preset { preset ≡ preset_of_row catalogues.now row.now }
    ensures { result ≡ first_broken (rules_of_row catalogues.now n row.now) }
{
    if !catalogues.has_list(&row.list) {
        return Some(Fault::of_section(n, Reason::UnknownList));
    }
    if row.junction.is_some() && table.is_none() {
        return Some(Fault::of_section(n, Reason::UnknownTable));
    }
    if row.preset.is_some() && preset.is_none() {
        return Some(Fault::of_section(n, Reason::UnknownPreset));
    }
    None
}

/// What the losses of section `s` come from.
fn section_facts(
    project: &Project,
    catalogues: &Catalogues<'_>,
    row: &SectionRow,
    s: u32,
    table: Option<u32>,
) -> SectionFacts
    requires project { IsProject project.now }
    requires section { s < section_count project.now.tree }
    requires row { row.now ≡ row_at project.now s }
    requires table { table ≡ table_of_row catalogues.now row.now }
    requires grid { IfSome table (λ t. t < length catalogues.now.fittings.grids) }
    ensures value { result ≡ section_facts project.now catalogues.now s }
    ensures bounds { IsFacts result }
    ensures joined { IsJoined result catalogues.now.fittings }
{
    SectionFacts {
        density: project.density,
        flow: project.flows.flow(s),
        neighbour_flow: neighbour_flow(project, s),
        length: row.length,
        local: row.local,
        device: row.device,
        table,
    }
}

/// The airflow of the neighbour of section `s`, l/s; 0 at the fan.
fn neighbour_flow(project: &Project, s: u32) -> u64
    requires project { IsProject project.now }
    requires section { s < section_count project.now.tree }
    ensures { result ≡ at_neighbour (flow_at project.now) (neighbour project.now.tree s) }
{
    match project.tree.neighbour(s) {
        Some(n) => project.flows.flow(n),
        None => 0,
    }
}

/// What rules are told of section `s` whatever its size.
fn told_of_any(
    project: &Project,
    catalogues: &Catalogues<'_>,
    row: &SectionRow,
    s: u32,
    preset: Option<u32>,
) -> PairFacts
    requires project { IsProject project.now }
    requires section { s < section_count project.now.tree }
    requires row { row.now ≡ row_at project.now s }
    requires preset { preset ≡ preset_of_row catalogues.now row.now }
    ensures { result ≡ told_of_any project.now catalogues.now s }
{
    PairFacts {
        section: s,
        size: 0,
        beside: 0,
        at_fan: project.tree.neighbour(s).is_none(),
        flow: project.flows.flow(s),
        area: 0,
        height: 0,
        beside_area: 0,
        velocity_limit: row.velocity,
        height_limit: row.height,
        taper: project.taper,
        preset,
    }
}

/// The numbers of the sizes that may stand beside section `s`.
fn besides(
    alloc: Global,
    project: &Project,
    catalogues: &Catalogues<'_>,
    s: u32,
) -> Result<List<Option<u32>>, NoMemory>
    requires project { IsProject project.now }
    requires section { s < section_count project.now.tree }
    ensures value { IfOk result (λ found. found ≡ besides project.now catalogues.now s) }
    ensures within { IfOk result (All (λ beside. ForSome beside (λ n. n < length catalogues.now.sizes.sizes))) }
    ensures few { IfOk result (λ found. length found ≤ MAX_LIST_SIZES) }
{
    match project.tree.neighbour(s) {
        Some(n) => numbers_beside(alloc, project, catalogues, n),
        None => Ok(List::from_vec(vec![in alloc; None]?)),
    }
}

/// The numbers of the sizes of the neighbour.
fn numbers_beside(
    alloc: Global,
    project: &Project,
    catalogues: &Catalogues<'_>,
    n: u32,
) -> Result<List<Option<u32>>, NoMemory>
    requires project { IsProject project.now }
    requires section { n < section_count project.now.tree }
    ensures value { IfOk result (λ found. found ≡ map (λ number. Some number) (numbers_at project.now catalogues.now n)) }
    ensures within { IfOk result (All (λ beside. ForSome beside (λ n. n < length catalogues.now.sizes.sizes))) }
    ensures few { IfOk result (λ found. length found ≤ MAX_LIST_SIZES) }
{
    let row = project.sections.as_slice()[n as usize];
    let numbers = catalogues.numbers_named(alloc, &row.list)?;
    all_there(alloc, numbers.as_slice())
}

/// Each number, as one that is there.
fn all_there(alloc: Global, numbers: &[u32]) -> Result<List<Option<u32>>, NoMemory>
    ensures { IfOk result (λ there. there ≡ map (λ number. Some number) numbers.now) }
{
    let mut there = Vec::new(alloc);
    for number in numbers {
        there.push(Some(*number))?;
    }
    Ok(List::from_vec(there))
}
