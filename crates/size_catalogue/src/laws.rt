//! Laws of the catalogue. Each is the contract of a call that has nothing to do.
ghost use Rattle.std.specs.Prelude.{◌≡◌, length};
ghost use Rattle.size_catalogue.specs.Catalogue.{IsCatalogue};
ghost use Rattle.size_catalogue.specs.Reading.{header};

use crate::limits::{
    COLUMNS, MAX_AREA, MAX_HEIGHT, MAX_JOIN_PRICE, MAX_LIST_SIZES, MAX_LISTS, MAX_METRE_PRICE,
    MIN_AREA, MIN_HEIGHT,
};
use crate::sizes::Sizes;

/// The limits of docs/FORMATS.md, "Sizes", as numbers. Areas are in mm2, heights in mm, prices in cents.
pub fn limits_as_numbers()
    ensures columns { (COLUMNS ≡ 7) × (length header ≡ 7) }
    ensures lists { (MAX_LISTS ≡ 16) × (MAX_LIST_SIZES ≡ 24) }
    ensures area { (MIN_AREA ≡ 1_000) × (MAX_AREA ≡ 100_000_000) }
    ensures height { (MIN_HEIGHT ≡ 1) × (MAX_HEIGHT ≡ 1_000_000) }
    ensures metre { MAX_METRE_PRICE ≡ 100_000_000 }
    ensures join { MAX_JOIN_PRICE ≡ 10_000_000_000 }
{}

/// Lists and sizes are within their limits and bounds, each list has a size, and no two have one name.
pub fn sizes_are_a_catalogue(sizes: &Sizes)
    ensures { IsCatalogue sizes.now }
{
    let _ = sizes.len();
}
