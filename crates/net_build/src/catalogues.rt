//! The catalogues that a network is built from.
ghost use Rattle.std.specs.Prelude.{◌≡◌, ◌==◌, ◌<◌, ◌≤◌, ◌≤ℤ◌, ℕ, length, All, Some, IfSome, IfOk, option_and_then, option_copied, pos, neg_ℤ};
ghost use Rattle.std.specs.List.{position_from};
ghost use Rattle.std.specs.Option.{ForSome};
ghost use Rattle.size_catalogue.specs.Catalogue.{IsSize, IsCatalogue, names_of, numbers_of};
ghost use Rattle.size_catalogue.specs.declared.limits.TheConstants.{MAX_LIST_SIZES};
ghost use Rattle.friction_table.specs.Reading.{table_of};
ghost use Rattle.name_index.specs.Places.{place_of, is_among};
ghost use Rattle.section_loss.specs.Facts.{IsFacts, IsJoined};
ghost use Rattle.section_loss.specs.Loss.{own_loss_of, junction_loss_of};
ghost use Rattle.section_loss.specs.declared.limits.TheConstants.{MAX_FITTING_LOSS, MAX_OWN_LOSS};
ghost use Rattle.net_build.specs.Catalogues.{HasFriction, numbers_named, size_at};
ghost use Rattle.net_build.specs.Joining.{place_among, preset_place};

use duct_units::{List, Name, NoMemory};
use fitting_tables::Fittings;
use friction_table::Friction;
use section_loss::{SectionFacts, junction_loss, own_loss};
use size_catalogue::{Size, Sizes, sizes_are_a_catalogue};
use std::alloc::Global;
use std::marker::Model;

/// The sizes with their friction, and the fittings.
#[derive(Drop)]
pub(crate) struct Catalogues<'a> {
    sizes: &'a Sizes,
    friction: &'a Friction,
    fittings: &'a Fittings,
}

impl<'a> Model for Catalogues<'a> {
    ghost use Rattle.net_build.specs.Catalogues.{Catalogues as CataloguesData, HasFriction};
    ghost use Rattle.size_catalogue.specs.Catalogue.{IsCatalogue};

    ghost Value = { CataloguesData };

    ghost view = { λ c. record { sizes = c.sizes.now; friction = c.friction.now; fittings = c.fittings.now } };

    ghost invariant = { λ c. HasFriction c.sizes.now c.friction.now × IsCatalogue c.sizes.now };
}

impl<'a> Catalogues<'a> {
    /// The friction was read for these sizes.
    pub fn new(sizes: &'a Sizes, friction: &'a Friction, fittings: &'a Fittings) -> Catalogues<'a>
        requires { HasFriction sizes.now friction.now }
        ensures { result ≡ record { sizes = sizes.now; friction = friction.now; fittings = fittings.now } }
    {
        sizes_are_a_catalogue(sizes);
        Catalogues {
            sizes,
            friction,
            fittings,
        }
    }

    /// Whether a list has the name.
    pub fn has_list(&self, name: &Name) -> bool
        ensures { result ≡ is_among name.now self.now.sizes.lists }
    {
        self.sizes.list(name).is_some()
    }

    /// The numbers of the sizes of the list with the name, rising; none where no list has it.
    pub fn numbers_named(&self, alloc: Global, list: &Name) -> Result<List<u32>, NoMemory>
        ensures value { IfOk result (λ numbers. numbers ≡ numbers_named self.now.sizes list.now) }
        ensures within { IfOk result (All (λ n. n < length self.now.sizes.sizes)) }
        ensures few { IfOk result (λ numbers. length numbers ≤ MAX_LIST_SIZES) }
    {
        numbers_named(alloc, self.sizes, list)
    }

    /// The size with the number.
    pub fn size(&self, number: u32) -> Size
        requires { number < length self.now.sizes.sizes }
        ensures value { result ≡ size_at self.now.sizes number }
        ensures bounds { IsSize result }
    {
        self.sizes.size(number)
    }

    /// The number of the fitting table with the name.
    pub fn table(&self, name: &Name) -> Option<u32>
        ensures value { result ≡ place_of name.now self.now.fittings.names }
        ensures within { IfSome result (λ table. table < length self.now.fittings.grids) }
    {
        self.fittings.table(name)
    }

    /// The place, among these numbers, of the size with the name.
    pub fn place(&self, numbers: &[u32], name: &Name) -> Option<u32>
        requires { length numbers.now ≤ MAX_LIST_SIZES }
        ensures { result ≡ option_and_then (λ number. place_among number numbers.now) (place_of name.now (names_of self.now.sizes.sizes)) }
    {
        place_of_size(self.sizes, numbers, name)
    }

    /// What a section loses in the size with the number whatever stands beside it, dPa.
    pub fn own_loss(&self, facts: &SectionFacts, number: u32, size: &Size) -> Option<u64>
        requires facts { IsFacts facts.now }
        requires number { number < length self.now.sizes.sizes }
        requires size { IsSize size.now }
        ensures value { result ≡ own_loss_of facts.now (table_of self.now.friction number) size.now }
        ensures most { IfSome result (λ own. own ≤ MAX_OWN_LOSS) }
    {
        own_loss(facts, self.friction, number, size)
    }

    /// What the section's junction loses beside a size of its neighbour, dPa.
    pub fn junction_loss(&self, facts: &SectionFacts, size: &Size, beside: Option<&Size>) -> i64
        requires facts { IsFacts facts.now }
        requires junction { IsJoined facts.now self.now.fittings }
        requires size { IsSize size.now }
        requires beside { ForSome (option_copied beside) IsSize }
        ensures value { result ≡ junction_loss_of facts.now self.now.fittings size.now (option_copied beside.entry) }
        ensures bounds { (neg_ℤ (pos MAX_FITTING_LOSS) ≤ℤ result) × (result ≤ℤ pos MAX_FITTING_LOSS) }
    {
        junction_loss(facts, self.fittings, size, beside)
    }
}

/// The place, in the list with the name, of the size with the name; None where the list has no such size.
pub fn place_in_list(
    alloc: Global,
    sizes: &Sizes,
    list: &Name,
    size: &Name,
) -> Result<Option<u32>, NoMemory>
    ensures { IfOk result (λ place. place ≡ preset_place sizes.now list.now size.now) }
{
    let numbers = numbers_named(alloc, sizes, list)?;
    Ok(place_of_size(sizes, numbers.as_slice(), size))
}

/// The numbers of the sizes of the list with the name, rising; none where no list has it.
fn numbers_named(alloc: Global, sizes: &Sizes, list: &Name) -> Result<List<u32>, NoMemory>
    ensures value { IfOk result (λ numbers. numbers ≡ numbers_named sizes.now list.now) }
    ensures within { IfOk result (All (λ n. n < length sizes.now.sizes)) }
    ensures few { IfOk result (λ numbers. length numbers ≤ MAX_LIST_SIZES) }
{
    match sizes.list(list) {
        Some(list) => numbers_of(alloc, sizes, list),
        None => Ok(List::from_vec(Vec::new(alloc))),
    }
}

/// The place, among these numbers, of the size with the name.
fn place_of_size(sizes: &Sizes, numbers: &[u32], name: &Name) -> Option<u32>
    requires { length numbers.now ≤ MAX_LIST_SIZES }
    ensures { result ≡ option_and_then (λ number. place_among number numbers.now) (place_of name.now (names_of sizes.now.sizes)) }
{
    let number = sizes.named(name)?;
    place_among(numbers, number)
}

/// The place, from 0, of the number among the numbers.
fn place_among(numbers: &[u32], number: u32) -> Option<u32>
    requires { length numbers.now ≤ MAX_LIST_SIZES }
    ensures { result ≡ place_among number numbers.now }
{
    match position_of(numbers, number) {
        Some(place) => Some(place as u32),
        None => None,
    }
}

fn position_of(numbers: &[u32], number: u32) -> Option<usize>
    ensures value { result ≡ position_from (λ n. n == number) 0 numbers.now }
    ensures within { IfSome result (λ place. place < length numbers.now) }
{
    numbers.iter().position(|n| *n == number)
}

/// The numbers of the sizes of the list, rising.
fn numbers_of(alloc: Global, sizes: &Sizes, list: u32) -> Result<List<u32>, NoMemory>
    requires { list < length sizes.now.lists }
    ensures value { IfOk result (λ numbers. numbers ≡ numbers_of list sizes.now.sizes) }
    ensures within { IfOk result (All (λ n. n < length sizes.now.sizes)) }
    ensures few { IfOk result (λ numbers. length numbers ≤ MAX_LIST_SIZES) }
{
    sizes_are_a_catalogue(sizes);
    let mut numbers = Vec::new(alloc);
    for k in 0..sizes.count(list) {
        numbers.push(sizes.number(list, k))?;
    }
    Ok(List::from_vec(numbers))
}
