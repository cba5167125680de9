//! The sizes of a section.
ghost use Rattle.std.specs.Prelude.{◌≡◌, ◌≤◌, length, IfOk};
ghost use Rattle.duct_units.specs.Rules.{Gives, unless_refused, first_broken};
ghost use Rattle.file_definitions.specs.Elements.{each};
ghost use Rattle.name_index.specs.Places.{is_among};
ghost use Rattle.toml_fields.specs.ArrayItems.{names_in};
ghost use Rattle.network_file.specs.Pairs.{all_size_rules, size_name_rules};

use duct_definitions::MAX_SIZES;
use duct_units::{Fault, List, Name, ReadError, Reason};
use std::alloc::Global;
use toml_fields::Names;

/// The sizes of the section at a place, or the first rule that is broken: none, too many, or two of one name.
pub(crate) fn read_sizes(alloc: Global, names: &Names, place: u32) -> Result<List<Name>, ReadError>
    ensures value { let sizes = names_in names.now in
        Gives result (unless_refused (first_broken (all_size_rules place sizes)) sizes) }
    ensures few { IfOk result (λ sizes. length sizes ≤ MAX_SIZES) }
{
    if names.len() == 0 {
        return Err(ReadError::Refused(Fault::of_section(place, Reason::Empty)));
    }
    if names.len() > MAX_SIZES {
        return Err(ReadError::Refused(Fault::of_section(place, Reason::TooMany)));
    }
    read_size_names(alloc, names, place)
}

/// The sizes, where they are few enough.
fn read_size_names(alloc: Global, names: &Names, place: u32) -> Result<List<Name>, ReadError>
    requires { length (names_in names.now) ≤ MAX_SIZES }
    ensures value { let sizes = names_in names.now in
        Gives result (unless_refused (first_broken (each (size_name_rules place) sizes)) sizes) }
    ensures few { IfOk result (λ sizes. length sizes ≤ MAX_SIZES) }
{
    let mut sizes = Vec::with_capacity(alloc, names.len())?;
    for k in 0..names.len() {
        let name = names.get(k);
        if is_among(&name, sizes.as_slice()) {
            return Err(ReadError::Refused(Fault::of_section(place, Reason::Twice)));
        }
        sizes.push(name)?;
    }
    Ok(List::from_vec(sizes))
}

/// Whether the name is among these, of which there are too few for an index to pay.
fn is_among(name: &Name, names: &[Name]) -> bool
    ensures { result ≡ is_among name.now names.now }
{
    names.contains(name)
}
