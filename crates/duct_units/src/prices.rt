//! Numbers that may not be there, as the least prices of what has no choice.
ghost use Rattle.std.specs.Prelude.{◌≡◌};
ghost use Rattle.duct_units.specs.Prices.{lesser};

/// The lesser of the two, or the one that is there.
pub fn lesser(a: Option<u64>, b: Option<u64>) -> Option<u64>
    ensures { result ≡ lesser a b }
{
    match (a, b) {
        (Some(a), Some(b)) => Some(a.min(b)),
        (one, None) | (None, one) => one,
    }
}
