//! The pairs of a section.
ghost use Rattle.std.specs.Prelude.{◌≡◌, ◌*◌, ◌<◌, ◌≤◌, map, IfSome, IfOk, replicate, None};
ghost use Rattle.toml.specs.View.{view};
ghost use Rattle.duct_units.specs.Rules.{Gives, unless_refused, first_broken};
ghost use Rattle.file_definitions.specs.Elements.{each};
ghost use Rattle.toml_fields.specs.ArrayItems.{arrays_in};
ghost use Rattle.network_file.specs.Pairs.{all_pair_rules, pair_rules, row_of, size_in, neighbour_size_in, rows_of, cells_of, columns_of};

use duct_definitions::{MAX_LOSS, MAX_PRICE, MAX_SIZES, Pair};
use duct_units::{Fault, List, NoMemory, ReadError, Reason};
use std::alloc::Global;
use toml::Value;
use toml_fields::{Arrays, bounded};

/// The most pairs of a section: one for each of its sizes beside each size of its neighbour.
pub const MAX_PAIRS: usize = MAX_SIZES * MAX_SIZES;

/// What a pair of the file says. Sizes count from 0; at the fan the neighbour's size is 0.
#[derive(Clone, Copy)]
pub struct PairRow {
    /// The number of the size.
    pub size: usize,
    /// The number of the neighbour's size.
    pub neighbour_size: usize,
    /// The loss and the price of the two.
    pub pair: Pair,
}

/// The pairs of the section at a place, from how many sizes it and its neighbour have, or the first rule that is
/// broken: too many; then pair by pair one of another form or out of range, or one whose sizes were given before.
pub(crate) fn read_pairs(
    alloc: Global,
    pairs: &Arrays,
    size_count: usize,
    neighbour_count: Option<usize>,
    place: u32,
) -> Result<List<Option<Pair>>, ReadError>
    requires sizes { size_count ≤ MAX_SIZES }
    requires neighbour { IfSome neighbour_count (λ n. n ≤ MAX_SIZES) }
    ensures { let given = arrays_in pairs.now in
        Gives result (unless_refused (first_broken (all_pair_rules place size_count neighbour_count given))
        (cells_of size_count (columns_of neighbour_count) (rows_of size_count neighbour_count given))) }
{
    if pairs.len() > MAX_PAIRS {
        return Err(ReadError::Refused(Fault::of_section(place, Reason::TooMany)));
    }
    read_pair_rows(alloc, pairs, size_count, neighbour_count, place)
}

/// The pairs, where they are few enough.
fn read_pair_rows(
    alloc: Global,
    pairs: &Arrays,
    size_count: usize,
    neighbour_count: Option<usize>,
    place: u32,
) -> Result<List<Option<Pair>>, ReadError>
    requires sizes { size_count ≤ MAX_SIZES }
    requires neighbour { IfSome neighbour_count (λ n. n ≤ MAX_SIZES) }
    ensures { let given = arrays_in pairs.now in
        Gives result (unless_refused (first_broken (each (pair_rules place size_count neighbour_count) given))
        (cells_of size_count (columns_of neighbour_count) (rows_of size_count neighbour_count given))) }
{
    let columns = columns_of(neighbour_count);
    let mut cells = no_pairs(alloc, size_count * columns)?;
    for i in 0..pairs.len() {
        let Some(row) = read_row(pairs.get(i), size_count, neighbour_count) else {
            return Err(ReadError::Refused(Fault::of_section(place, Reason::Pair)));
        };
        let cell = row.size * columns + row.neighbour_size;
        if cells[cell].is_some() {
            return Err(ReadError::Refused(Fault::of_section(place, Reason::Twice)));
        }
        cells[cell] = Some(row.pair);
    }
    Ok(List::from_vec(cells))
}

/// The neighbour's number of sizes, and 1 at the fan.
fn columns_of(neighbour_count: Option<usize>) -> usize
    requires { IfSome neighbour_count (λ n. n ≤ MAX_SIZES) }
    ensures value { result ≡ columns_of neighbour_count }
    ensures few { result ≤ MAX_SIZES }
{
    neighbour_count.unwrap_or(1)
}

/// So many cells without a pair.
fn no_pairs(alloc: Global, count: usize) -> Result<Vec<Option<Pair>>, NoMemory>
    ensures { IfOk result (λ cells. cells.items ≡ replicate count None) }
{
    Ok(vec![in alloc; None; count]?)
}

/// The pair of four integers: a size, the neighbour's size, a loss and a price, each within its bounds.
fn read_row(values: &[Value], size_count: usize, neighbour_count: Option<usize>) -> Option<PairRow>
    ensures value { result ≡ row_of size_count neighbour_count (map view values.now) }
    ensures within { IfSome result (λ row.
        (row.size < size_count) × (row.neighbour_size < columns_of neighbour_count)) }
{
    let [size, neighbour_size, loss, price] = values else {
        return None;
    };
    let size = size_in(size, size_count)?;
    let neighbour_size = neighbour_size_in(neighbour_size, neighbour_count)?;
    let loss = bounded(0, MAX_LOSS, loss.as_integer())?;
    let price = bounded(0, MAX_PRICE, price.as_integer())?;
    Some(PairRow {
        size,
        neighbour_size,
        pair: Pair { loss, price },
    })
}

/// The number of a size of so many, from 0; the file counts it from 1.
fn size_in(value: &Value, count: usize) -> Option<usize>
    ensures value { result ≡ size_in count (view value.now) }
    ensures within { IfSome result (λ size. size < count) }
{
    let size = bounded(1, count as u64, value.as_integer())?;
    Some(size as usize - 1)
}

/// The number of the neighbour's size, which the file writes as 0 at the fan.
fn neighbour_size_in(value: &Value, neighbour_count: Option<usize>) -> Option<usize>
    ensures value { result ≡ neighbour_size_in neighbour_count (view value.now) }
    ensures within { IfSome result (λ size. size < columns_of neighbour_count) }
{
    match neighbour_count {
        Some(count) => size_in(value, count),
        None => {
            let size = bounded(0, 0, value.as_integer())?;
            Some(size as usize)
        }
    }
}
