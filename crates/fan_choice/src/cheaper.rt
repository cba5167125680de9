//! The cheaper of two offers.
ghost use Rattle.std.specs.Prelude.{◌≡◌, ℕ};
ghost use Rattle.fan_choice.specs.FirstCheapest.{cheaper};

/// What is on offer at a cost.
pub(crate) trait Offer: Copy {
    // the cost of the offer, cents
    ghost price: { Self → ℕ };

    /// What it costs, cents.
    fn cost(&self) -> u64
        ensures { result ≡ price self.now };
}

/// The cheaper of the two, the first of equal ones, or the one that is there.
pub(crate) fn cheaper<T: Offer>(best: Option<T>, next: Option<T>) -> Option<T>
    ensures { result ≡ cheaper T.price best next }
{
    match (best, next) {
        (Some(old), Some(new)) if new.cost() < old.cost() => next,
        (Some(_), _) => best,
        (None, _) => next,
    }
}
