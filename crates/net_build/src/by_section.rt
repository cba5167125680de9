//! Sections one by one: the pairs of each, and how many of them each rule refuses.
ghost use Rattle.std.specs.Prelude.{◌≡◌, ℕ, ◌+◌, ◌-◌, ◌<◌, ◌≤◌, length, map, sum_by, slice_index, All, IfOk};
ghost use Rattle.duct_units.specs.Rules.{Gives, first_broken, unless_refused};
ghost use Rattle.duct_definitions.specs.Network.{IsBounded};
ghost use Rattle.duct_definitions.specs.Tree.{section_count};
ghost use Rattle.project_file.specs.Projects.{IsProject};
ghost use Rattle.net_build.specs.Asking.{IsOpen, Asked};
ghost use Rattle.net_build.specs.Built.{pairs_of, section_built};
ghost use Rattle.net_build.specs.Catalogues.{Catalogues as CataloguesData, HasFriction};
ghost use Rattle.net_build.specs.Joining.{rules_of_section};
ghost use Rattle.net_build.specs.Refusals.{refusals_of, count_of, CountsWithin, counted_together};

use crate::asking::{name_of, none_refused, section_pairs};
use crate::catalogues::Catalogues;
use crate::limits::{MAX_ASKED, MAX_SECTION_ASKED};
use crate::sections::{SectionSizes, section_sizes};
use design_rules::{MAX_RULES, SizeRule};
use duct_definitions::{MAX_SECTIONS, Pair, RuleCount};
use duct_units::{List, NoMemory, ReadError};
use fitting_tables::Fittings;
use friction_table::Friction;
use project_file::Project;
use size_catalogue::{Sizes, sizes_are_a_catalogue};
use std::alloc::Global;

/// How many pairs of sizes each rule refused, in the order of the rules.
pub type Refusals = List<RuleCount>;

/// The pairs of one section, and how many of them each rule refused.
#[derive(Drop)]
pub struct BuiltSection {
    /// Its pairs, by its own size and then by its neighbour's; None where a pair isn't permitted.
    pub pairs: List<Option<Pair>>,
    /// How many pairs each rule refused.
    pub refusals: Refusals,
}

/// The pairs and the counts of section `s` of the project alone, or the first of its names that joins nothing.
pub fn build_section<R: SizeRule>(
    alloc: Global,
    project: &Project,
    sizes: &Sizes,
    friction: &Friction,
    fittings: &Fittings,
    s: u32,
    rules: &mut Vec<R>,
) -> Result<BuiltSection, ReadError>
    requires project { IsProject project.now }
    requires friction { HasFriction sizes.now friction.now }
    requires section { s < section_count project.now.tree }
    requires few { length rules.old.items ≤ MAX_RULES }
    requires room { (i : ℕ) → slice_index (map R.count rules.old.items) i ≤ u64.MAX - MAX_SECTION_ASKED }
    ensures value { let c : CataloguesData = record { sizes = sizes.now; friction = friction.now; fittings = fittings.now } in
        Gives result (unless_refused (first_broken (rules_of_section project.now c s))
        (section_built project.now c (map R.allows rules.old.items) (map R.label rules.old.items) s)) }
    ensures bounds { IfOk result (λ built. All IsBounded built.pairs) }
    ensures most { IfOk result (λ built. CountsWithin MAX_SECTION_ASKED built.refusals) }
    ensures asked { Asked R.allows R.label R.count MAX_SECTION_ASKED rules.old.items rules.new.items }
{
    let catalogues = Catalogues::new(sizes, friction, fittings);
    let section = section_sizes(alloc, project, &catalogues, s)?;
    Ok(built_section(alloc, &catalogues, &section, rules)?)
}

/// The pairs of all sections, and of each how many of them each rule refused.
pub(crate) fn all_built<R: SizeRule>(
    alloc: Global,
    catalogues: &Catalogues<'_>,
    sections: &[SectionSizes],
    rules: &mut Vec<R>,
) -> Result<(List<List<Option<Pair>>>, List<Refusals>), NoMemory>
    requires open { All (IsOpen catalogues.now) sections.now }
    requires sections { length sections.now ≤ MAX_SECTIONS }
    requires few { length rules.old.items ≤ MAX_RULES }
    requires room { (i : ℕ) → slice_index (map R.count rules.old.items) i ≤ u64.MAX - MAX_ASKED }
    ensures pairs { IfOk result (λ built. built.0 ≡ map (pairs_of catalogues.now (map R.allows rules.old.items)) sections.now) }
    ensures bounds { IfOk result (λ built. All (All IsBounded) built.0) }
    ensures refusals { IfOk result (λ built. built.1
        ≡ map (refusals_of catalogues.now (map R.allows rules.old.items) (map R.label rules.old.items)) sections.now) }
    ensures most { IfOk result (λ built. All (CountsWithin MAX_SECTION_ASKED) built.1) }
    ensures asked { Asked R.allows R.label R.count MAX_ASKED rules.old.items rules.new.items }
{
    let mut pairs = Vec::new(alloc);
    let mut refusals = Vec::new(alloc);
    for s in 0..sections.len() {
        let section = built_section(alloc, catalogues, &sections[s], rules)?;
        pairs.push(section.pairs)?;
        refusals.push(section.refusals)?;
    }
    Ok((List::from_vec(pairs), List::from_vec(refusals)))
}

/// The pairs of the section, and how many of them each rule refused.
fn built_section<R: SizeRule>(
    alloc: Global,
    catalogues: &Catalogues<'_>,
    section: &SectionSizes,
    rules: &mut Vec<R>,
) -> Result<BuiltSection, NoMemory>
    requires open { IsOpen catalogues.now section.now }
    requires few { length rules.old.items ≤ MAX_RULES }
    requires room { (i : ℕ) → slice_index (map R.count rules.old.items) i ≤ u64.MAX - MAX_SECTION_ASKED }
    ensures pairs { IfOk result (λ built. built.pairs ≡ pairs_of catalogues.now (map R.allows rules.old.items) section.now) }
    ensures bounds { IfOk result (λ built. All IsBounded built.pairs) }
    ensures refusals { IfOk result (λ built. built.refusals
        ≡ refusals_of catalogues.now (map R.allows rules.old.items) (map R.label rules.old.items) section.now) }
    ensures most { IfOk result (λ built. CountsWithin MAX_SECTION_ASKED built.refusals) }
    ensures asked { Asked R.allows R.label R.count MAX_SECTION_ASKED rules.old.items rules.new.items }
{
    let mut refusals = none_refused(alloc, rules)?;
    let pairs = section_pairs(alloc, catalogues, section, rules, &mut refusals)?;
    Ok(BuiltSection {
        pairs,
        refusals: List::from_vec(refusals),
    })
}

/// How many pairs of all sections each rule refused, from the counts of each section.
pub fn count_together<R: SizeRule>(
    alloc: Global,
    rules: &Vec<R>,
    sections: &[Refusals],
) -> Result<Refusals, NoMemory>
    requires sections { length sections.now ≤ MAX_SECTIONS }
    requires most { All (CountsWithin MAX_SECTION_ASKED) sections.now }
    ensures { IfOk result (λ refusals. refusals ≡ counted_together sections.now (map R.label rules.now.items)) }
{
    let mut refusals = Vec::new(alloc);
    for i in 0..rules.len() {
        refusals.push(RuleCount {
            name: name_of(&rules[i]),
            count: count_of_rule(sections, i),
        })?;
    }
    Ok(List::from_vec(refusals))
}

/// How many pairs of all sections rule i refused.
fn count_of_rule(sections: &[Refusals], i: usize) -> u64
    requires sections { length sections.now ≤ MAX_SECTIONS }
    requires most { All (CountsWithin MAX_SECTION_ASKED) sections.now }
    ensures { result ≡ sum_by (count_of i) sections.now }
{
    let mut count = 0;
    for section in sections {
        count += count_in(section.as_slice(), i);
    }
    count
}

/// How many pairs of a section rule i refused; 0 where there is no such rule.
fn count_in(refusals: &[RuleCount], i: usize) -> u64
    ensures { result ≡ count_of i refusals.now }
{
    match refusals.get(i) {
        Some(rule) => rule.count,
        None => 0,
    }
}
