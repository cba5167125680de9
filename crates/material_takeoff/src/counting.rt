//! The sections, each counted with those of its size.
ghost use Rattle.std.specs.Prelude.{◌≡◌, ◌≤◌, ◌<◌, ◌+◌, ◌^◌, IfOk, OnOk, length, map, sum_by, All};
ghost use Rattle.std.specs.List.{zip};
ghost use Rattle.duct_definitions.specs.declared.limits.TheConstants.{MAX_SECTIONS};
ghost use Rattle.duct_definitions.specs.declared.duct.TheConstants.{MAX_LENGTH};
ghost use Rattle.material_takeoff.specs.Uses.{uses};
ghost use Rattle.material_takeoff.specs.Counting.{section_use, together, with_use};

use crate::record::SizeUse;
use duct_definitions::{ListedSection, MAX_LENGTH, MAX_SECTIONS};
use duct_units::{List, NoMemory};
use name_index::NameIndex;
use std::alloc::Global;

/// What the sections take of each size, in order of first use; `lengths` has the length of each.
pub(crate) fn size_uses(
    alloc: Global,
    sections: &[ListedSection],
    lengths: &[u64],
) -> Result<List<SizeUse>, NoMemory>
    requires same_length { length sections.now ≡ length lengths.now }
    requires few { length sections.now ≤ MAX_SECTIONS }
    requires lengths { All (λ length. length ≤ MAX_LENGTH) lengths.now }
    ensures { IfOk result (λ sizes. sizes ≡ uses (zip sections.now lengths.now)) }
{
    let mut sizes = NameIndex::new(alloc);
    let mut uses = Vec::new(alloc);
    for (s, section) in sections.iter().enumerate() {
        add_use(&mut sizes, &mut uses, &section_use(section, lengths[s]))?;
    }
    Ok(List::from_vec(uses))
}

/// What one section of this length takes of its size.
fn section_use(section: &ListedSection, length: u64) -> SizeUse
    ensures value { result ≡ section_use (section.now, length) }
    ensures bound { result.price < 2 ^ 64 }
{
    SizeUse {
        name: section.size,
        count: 1,
        length,
        price: u128::from(section.price),
    }
}

/// Adds what one section takes to what is taken of its size; `sizes` has the names of the uses.
fn add_use(sizes: &mut NameIndex, uses: &mut Vec<SizeUse>, more: &SizeUse) -> Result<(), NoMemory>
    requires names { sizes.old ≡ map (λ u. u.name) uses.old.items }
    requires count { sum_by (λ u. u.count) uses.old.items + more.now.count < 2 ^ 32 }
    requires length { sum_by (λ u. u.length) uses.old.items + more.now.length < 2 ^ 64 }
    requires price { sum_by (λ u. u.price) uses.old.items + more.now.price < 2 ^ 128 }
    ensures names { OnOk result (sizes.new ≡ map (λ u. u.name) uses.new.items) }
    ensures uses { OnOk result (uses.new.items ≡ with_use uses.old.items more.now) }
{
    match sizes.find(&more.name) {
        Some(place) => {
            let taken = together(&uses[place], more);
            uses[place] = taken;
        }
        None => {
            sizes.add(more.name)?;
            uses.push(*more)?;
        }
    }
    Ok(())
}

/// What two uses of one size take together.
fn together(uses: &SizeUse, more: &SizeUse) -> SizeUse
    requires count { uses.now.count + more.now.count < 2 ^ 32 }
    requires length { uses.now.length + more.now.length < 2 ^ 64 }
    requires price { uses.now.price + more.now.price < 2 ^ 128 }
    ensures { result ≡ together uses.now more.now }
{
    SizeUse {
        name: uses.name,
        count: uses.count + more.count,
        length: uses.length + more.length,
        price: uses.price + more.price,
    }
}
