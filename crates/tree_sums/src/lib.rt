//! Sums over a tree of sections towards the fan, whatever the sections weigh: along the route of a section, and over
//! all that lies beyond a place. Each law is the contract of a call that has nothing to do.
//!
//! Sections count from 0, and what stands next to a section has a smaller number.
#![tactic(auto)]

ghost use Rattle.std.specs.Prelude.{◌≡◌, ◌+◌, ◌<◌, ◌⊎◌, ℕ, true};
ghost use Rattle.duct_units.specs.declared.side.Side.{Side};
ghost use Rattle.tree_sums.specs.Route.{Place, Fan, At, same, Falls, goes_by};
ghost use Rattle.tree_sums.specs.Sums.{weight_at, along, total, gated, beyond};

/// The sum beyond a section is its own weight and the sums beyond the sections next to it; beyond a side of the fan
/// it is the sums beyond the sections there.
pub fn sums_beyond_split()
    ensures section { (next : ℕ → Place) → Falls next → (weight : ℕ → ℕ) (n s : ℕ) → s < n
        → beyond next weight n (At s)
        ≡ weight s + total (λ c. gated (same (next c) (At s)) (beyond next weight n (At c))) n }
    ensures fan { (next : ℕ → Place) → Falls next → (weight : ℕ → ℕ) (n : ℕ) (x : Side)
        → beyond next weight n (Fan x)
        ≡ total (λ c. gated (same (next c) (Fan x)) (beyond next weight n (At c))) n }
{}

/// As far as a place a route weighs what it weighs as far as the section next to the place, and the place.
pub fn sums_along_split()
    ensures { (next : ℕ → Place) → Falls next → (weight : ℕ → ℕ) (o : Place) (c : ℕ) → next c ≡ o
        → (t : ℕ) → goes_by next (At c) t ≡ true
        → along next weight o t ≡ along next weight (At c) t + weight_at weight o }
{}

/// What lies beyond a section is the section or lies beyond one of its children, and beyond one alone.
pub fn routes_go_by_one_child()
    ensures some { (next : ℕ → Place) → Falls next → (s t : ℕ) → goes_by next (At s) t ≡ true
        → (t ≡ s) ⊎ ((c : ℕ) × (next c ≡ At s) × (goes_by next (At c) t ≡ true)) }
    ensures one { (next : ℕ → Place) → Falls next → (s c d : ℕ) → next c ≡ At s → next d ≡ At s
        → (t : ℕ) → goes_by next (At c) t ≡ true → goes_by next (At d) t ≡ true → c ≡ d }
{}
