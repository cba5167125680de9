//! What a section costs.
ghost use Rattle.std.specs.Prelude.{◌≡◌, ◌≤◌};
ghost use Rattle.duct_definitions.specs.declared.limits.TheConstants.{MAX_PRICE};
ghost use Rattle.size_catalogue.specs.Catalogue.{IsSize};
ghost use Rattle.section_loss.specs.Price.{is_stepped, price_of, metres_price_of, IsMetresPrice};

use duct_definitions::MAX_LENGTH;
use friction_table::MILLIMETRES_PER_METRE;
use size_catalogue::{MAX_METRE_PRICE, Size};

/// What a length in mm costs in the size, cents: the metres, rounded up, the join, and where the section is stepped the
/// step (docs/RULES.md, "Price").
pub fn price(length: u64, size: &Size, stepped: bool) -> u64
    requires length { length ≤ MAX_LENGTH }
    requires size { IsSize size.now }
    ensures value { result ≡ price_of length size.now stepped }
    ensures most { result ≤ MAX_PRICE }
{
    let step = if stepped { size.step } else { 0 };
    metres_price(length, size.metre) + size.join + step
}

// What the metres of a length in mm cost, cents.
fn metres_price(length: u64, metre: u64) -> u64
    requires length { length ≤ MAX_LENGTH }
    requires metre { metre ≤ MAX_METRE_PRICE }
    ensures value { result ≡ metres_price_of length metre }
    ensures ceiling { IsMetresPrice length metre result }
    ensures most { result ≤ 100_000_000_000 }
{
    (length * metre).div_ceil(MILLIMETRES_PER_METRE)
}

/// Whether there is a step between a section's size and its neighbour's, by their numbers in the catalogue. There is
/// none at the fan, where no size stands beside it.
pub fn is_stepped(number: u32, beside: Option<u32>) -> bool
    ensures { result ≡ is_stepped number beside }
{
    match beside {
        Some(beside) => number != beside,
        None => false,
    }
}
