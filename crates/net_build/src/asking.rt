//! The pairs of sizes that the rules permit, and how many each rule refuses.
ghost use Rattle.std.specs.Prelude.{◌≡◌, ℕ, ◌+◌, ◌-◌, ◌<◌, ◌≤◌, ◌≤ℤ◌, ◌++◌, [], ◌∷◌, length, map, slice_index, pos, neg_ℤ, All, is_some, IfOk, OnOk, option_map, if◌then◌else◌};
ghost use Rattle.std.specs.Option.{ForSome};
ghost use Rattle.duct_definitions.specs.Network.{IsBounded};
ghost use Rattle.duct_definitions.specs.declared.limits.TheConstants.{MAX_PRICE};
ghost use Rattle.section_loss.specs.Loss.{junction_loss_of};
ghost use Rattle.section_loss.specs.Price.{is_stepped};
ghost use Rattle.section_loss.specs.declared.limits.TheConstants.{MAX_FITTING_LOSS};
ghost use Rattle.design_rules.specs.Meanings.{all_allow, refuses_first};
ghost use Rattle.net_build.specs.Built.{pairs_of};
ghost use Rattle.net_build.specs.Catalogues.{size_at};
ghost use Rattle.net_build.specs.Pairs.{SizePair, has_friction, pair_of, possible_pair, pairs_in_size, size_pairs};
ghost use Rattle.net_build.specs.Refusals.{refused_among};
ghost use Rattle.net_build.specs.Sections.{area_beside, beside_of, told};
ghost use Rattle.net_build.specs.Asking.{chosen, IsChosen, IsOpen, added, counts_of, none_counted, Asked};

use crate::catalogues::Catalogues;
use crate::sections::SectionSizes;
use design_rules::{MAX_RULES, PairFacts, SizeRule, judge};
use duct_definitions::{Pair, RuleCount};
use duct_units::{List, Name, NoMemory};
use section_loss::{is_stepped, price, together};
use size_catalogue::Size;
use std::alloc::Global;

/// One size of a section, with what it loses by itself and what it costs.
#[derive(Clone, Copy)]
pub(crate) struct ChosenSize {
    /// Its place in the section's list.
    pub place: u32,
    /// Its number in the catalogue.
    pub number: u32,
    /// The size.
    pub size: Size,
    /// What the section loses in it but for the junction, dPa; None without friction.
    pub own_loss: Option<u64>,
    /// What it costs without a step, cents.
    pub price: u64,
    /// What it costs with one, cents.
    pub stepped_price: u64,
}

/// The names of the rules, none of which has refused anything yet.
pub(crate) fn none_refused<R: SizeRule>(
    alloc: Global,
    rules: &Vec<R>,
) -> Result<Vec<RuleCount>, NoMemory>
    ensures { IfOk result (λ refusals. refusals.items ≡ none_counted (map R.label rules.now.items)) }
{
    let mut refusals = Vec::new(alloc);
    for i in 0..rules.len() {
        refusals.push(RuleCount {
            name: name_of(&rules[i]),
            count: 0,
        })?;
    }
    Ok(refusals)
}

pub(crate) fn name_of<R: SizeRule>(rule: &R) -> Name
    ensures { result ≡ R.label rule.now }
{
    rule.name()
}

/// The pairs of the section, by its own size and then by its neighbour's; None where a pair isn't permitted.
pub(crate) fn section_pairs<R: SizeRule>(
    alloc: Global,
    catalogues: &Catalogues<'_>,
    section: &SectionSizes,
    rules: &mut Vec<R>,
    refusals: &mut Vec<RuleCount>,
) -> Result<List<Option<Pair>>, NoMemory>
    requires open { IsOpen catalogues.now section.now }
    requires few { length rules.old.items ≤ MAX_RULES }
    requires long { length refusals.old.items ≡ length rules.old.items }
    requires room { (i : ℕ) → slice_index (map R.count rules.old.items) i ≤ u64.MAX - 576 }
    requires space { (i : ℕ) → slice_index (counts_of refusals.old.items) i ≤ u64.MAX - 576 }
    ensures value { IfOk result (λ pairs. pairs ≡ pairs_of catalogues.now (map R.allows rules.old.items) section.now) }
    ensures bounds { IfOk result (All IsBounded) }
    ensures refusals { OnOk result (refusals.new.items
        ≡ added (refused_among catalogues.now (map R.allows rules.old.items) section.now (size_pairs section.now)) refusals.old.items) }
    ensures asked { Asked R.allows R.label R.count 576 rules.old.items rules.new.items }
{
    let mut pairs = Vec::new(alloc);
    for k in 0..section.numbers.as_slice().len() {
        let size = chosen_size(catalogues, section, k as u32);
        add_pairs(catalogues, section, &size, rules, refusals, &mut pairs)?;
    }
    Ok(List::from_vec(pairs))
}

/// Size k of the section, with what it loses by itself and what it costs.
fn chosen_size(catalogues: &Catalogues<'_>, section: &SectionSizes, k: u32) -> ChosenSize
    requires open { IsOpen catalogues.now section.now }
    requires size { k < length section.now.numbers }
    ensures value { result ≡ chosen catalogues.now section.now k }
    ensures chosen { IsChosen result }
{
    let number = section.numbers.as_slice()[k as usize];
    let size = catalogues.size(number);
    ChosenSize {
        place: k,
        number,
        size,
        own_loss: catalogues.own_loss(&section.facts, number, &size),
        price: price(section.facts.length, &size, false),
        stepped_price: price(section.facts.length, &size, true),
    }
}

/// The pairs of the section in one size, added to those of the sizes before it.
fn add_pairs<R: SizeRule>(
    catalogues: &Catalogues<'_>,
    section: &SectionSizes,
    size: &ChosenSize,
    rules: &mut Vec<R>,
    refusals: &mut Vec<RuleCount>,
    pairs: &mut Vec<Option<Pair>>,
) -> Result<(), NoMemory>
    requires open { IsOpen catalogues.now section.now }
    requires size { size.now ≡ chosen catalogues.now section.now size.now.place }
    requires chosen { IsChosen size.now }
    requires few { length rules.old.items ≤ MAX_RULES }
    requires long { length refusals.old.items ≡ length rules.old.items }
    requires room { (i : ℕ) → slice_index (map R.count rules.old.items) i ≤ u64.MAX - 24 }
    requires space { (i : ℕ) → slice_index (counts_of refusals.old.items) i ≤ u64.MAX - 24 }
    requires bounds { All IsBounded pairs.old.items }
    ensures value { OnOk result (pairs.new.items
        ≡ pairs.old.items ++ map (pair_of catalogues.now (map R.allows rules.old.items) section.now) (pairs_in_size section.now size.now.place)) }
    ensures bounds { OnOk result (All IsBounded pairs.new.items) }
    ensures refusals { OnOk result (refusals.new.items
        ≡ added (refused_among catalogues.now (map R.allows rules.old.items) section.now (pairs_in_size section.now size.now.place)) refusals.old.items) }
    ensures asked { Asked R.allows R.label R.count 24 rules.old.items rules.new.items }
{
    for g in 0..section.besides.as_slice().len() {
        let pair = pair_beside(catalogues, section, size, g as u32, rules, refusals);
        pairs.push(pair)?;
    }
    Ok(())
}

/// The section in the size beside its neighbour's size g; None where the pair isn't permitted.
fn pair_beside<R: SizeRule>(
    catalogues: &Catalogues<'_>,
    section: &SectionSizes,
    size: &ChosenSize,
    g: u32,
    rules: &mut Vec<R>,
    refusals: &mut Vec<RuleCount>,
) -> Option<Pair>
    requires open { IsOpen catalogues.now section.now }
    requires size { size.now ≡ chosen catalogues.now section.now size.now.place }
    requires chosen { IsChosen size.now }
    requires beside { g < length section.now.besides }
    requires few { length rules.old.items ≤ MAX_RULES }
    requires long { length refusals.old.items ≡ length rules.old.items }
    requires room { (i : ℕ) → slice_index (map R.count rules.old.items) i < u64.MAX }
    requires space { (i : ℕ) → slice_index (counts_of refusals.old.items) i < u64.MAX }
    ensures value { let pair : SizePair = record { size = size.now.place; beside = g } in
        result ≡ pair_of catalogues.now (map R.allows rules.old.items) section.now pair }
    ensures bounds { IsBounded result }
    ensures refusals { let pair : SizePair = record { size = size.now.place; beside = g } in refusals.new.items
        ≡ added (refused_among catalogues.now (map R.allows rules.old.items) section.now (pair ∷ [])) refusals.old.items }
    ensures asked { Asked R.allows R.label R.count 1 rules.old.items rules.new.items }
{
    if !has_friction(catalogues, section, size) {
        return None;
    }
    let facts = told(catalogues, section, size, g);
    if ask(rules, refusals, &facts) {
        possible_pair(catalogues, section, size, g)
    } else {
        None
    }
}

/// Whether the size has friction at the airflow of the section.
fn has_friction(catalogues: &Catalogues<'_>, section: &SectionSizes, size: &ChosenSize) -> bool
    requires { size.now ≡ chosen catalogues.now section.now size.now.place }
    ensures { result ≡ has_friction catalogues.now section.now size.now.place }
{
    size.own_loss.is_some()
}

/// What the section loses and costs in the size beside its neighbour's size g; None without friction.
fn possible_pair(
    catalogues: &Catalogues<'_>,
    section: &SectionSizes,
    size: &ChosenSize,
    g: u32,
) -> Option<Pair>
    requires open { IsOpen catalogues.now section.now }
    requires size { size.now ≡ chosen catalogues.now section.now size.now.place }
    requires chosen { IsChosen size.now }
    requires beside { g < length section.now.besides }
    ensures value { let pair : SizePair = record { size = size.now.place; beside = g } in
        result ≡ possible_pair catalogues.now section.now pair }
    ensures friction { is_some result ≡ has_friction catalogues.now section.now size.now.place }
    ensures bounds { IsBounded result }
{
    let own = size.own_loss?;
    let beside = beside_at(catalogues, section, g);
    let junction = junction_loss(catalogues, section, size, beside);
    Some(Pair {
        loss: together(own, junction),
        price: price_beside(size, beside),
    })
}

/// The number of what stands beside the section in place g; None at the fan.
fn beside_at(catalogues: &Catalogues<'_>, section: &SectionSizes, g: u32) -> Option<u32>
    requires open { IsOpen catalogues.now section.now }
    requires beside { g < length section.now.besides }
    ensures value { result ≡ beside_of section.now g }
    ensures within { ForSome result (λ n. n < length catalogues.now.sizes.sizes) }
{
    section.besides.as_slice()[g as usize]
}

/// What the section costs in the size beside the size with the number, cents.
fn price_beside(size: &ChosenSize, beside: Option<u32>) -> u64
    requires { IsChosen size.now }
    ensures value { result ≡ (if is_stepped size.now.number beside then size.now.stepped_price else size.now.price) }
    ensures most { result ≤ MAX_PRICE }
{
    if is_stepped(size.number, beside) {
        size.stepped_price
    } else {
        size.price
    }
}

/// What the section's junction loses beside the size with the number, dPa.
fn junction_loss(
    catalogues: &Catalogues<'_>,
    section: &SectionSizes,
    size: &ChosenSize,
    beside: Option<u32>,
) -> i64
    requires open { IsOpen catalogues.now section.now }
    requires chosen { IsChosen size.now }
    requires beside { ForSome beside (λ n. n < length catalogues.now.sizes.sizes) }
    ensures value { result ≡ junction_loss_of section.now.facts catalogues.now.fittings size.now.size (option_map (size_at catalogues.now.sizes) beside) }
    ensures bounds { (neg_ℤ (pos MAX_FITTING_LOSS) ≤ℤ result) × (result ≤ℤ pos MAX_FITTING_LOSS) }
{
    match beside {
        Some(number) => {
            let beside = catalogues.size(number);
            catalogues.junction_loss(&section.facts, &size.size, Some(&beside))
        }
        None => catalogues.junction_loss(&section.facts, &size.size, None),
    }
}

/// What rules are told of the section in the size beside its neighbour's size g.
fn told(catalogues: &Catalogues<'_>, section: &SectionSizes, size: &ChosenSize, g: u32) -> PairFacts
    requires open { IsOpen catalogues.now section.now }
    requires size { size.now ≡ chosen catalogues.now section.now size.now.place }
    requires beside { g < length section.now.besides }
    ensures { result ≡ told catalogues.now section.now size.now.place g }
{
    PairFacts {
        size: size.place,
        beside: g,
        area: size.size.area,
        height: size.size.height,
        beside_area: area_beside(catalogues, beside_at(catalogues, section, g)),
        ..section.told
    }
}

/// The area of the size with the number, mm2; 0 at the fan.
fn area_beside(catalogues: &Catalogues<'_>, beside: Option<u32>) -> u64
    requires { ForSome beside (λ n. n < length catalogues.now.sizes.sizes) }
    ensures { result ≡ area_beside catalogues.now beside }
{
    match beside {
        Some(number) => catalogues.size(number).area,
        None => 0,
    }
}

/// Whether every rule allows the facts; the first refusal is counted.
fn ask<R: SizeRule>(rules: &mut Vec<R>, refusals: &mut Vec<RuleCount>, facts: &PairFacts) -> bool
    requires few { length rules.old.items ≤ MAX_RULES }
    requires long { length refusals.old.items ≡ length rules.old.items }
    requires room { (i : ℕ) → slice_index (map R.count rules.old.items) i < u64.MAX }
    requires space { (i : ℕ) → slice_index (counts_of refusals.old.items) i < u64.MAX }
    ensures answer { result ≡ all_allow (map R.allows rules.old.items) facts.now }
    ensures refusals { refusals.new.items
        ≡ added (λ i. if refuses_first (map R.allows rules.old.items) i facts.now then 1 else 0) refusals.old.items }
    ensures asked { Asked R.allows R.label R.count 1 rules.old.items rules.new.items }
{
    match judge(rules, facts) {
        Some(i) => {
            refusals[i as usize].count += 1;
            false
        }
        None => true,
    }
}
