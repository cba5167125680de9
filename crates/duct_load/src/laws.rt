//! Laws of made networks. Each is the contract of a call that has nothing to do.
ghost use Rattle.std.specs.Prelude.{◌≡◌, ◌≤◌, ◌<◌, ◌∷◌, [], ℕ, count_by, Some, None, IfSome};
ghost use Rattle.std.specs.List.{range_with_len};
ghost use Rattle.duct_units.specs.declared.side.Side.{Side};
ghost use Rattle.duct_units.specs.Side.{same_side};
ghost use Rattle.duct_definitions.specs.Network.{IsNetwork, pair_at};
ghost use Rattle.duct_definitions.specs.declared.limits.TheConstants.{MAX_SECTIONS};
ghost use Rattle.duct_load.specs.Made.{side_of, place_of, section_at, neighbour_of, tree_of, made};
ghost use Rattle.duct_load.specs.Summary.{pair_count};

/// The section of a side in a place is of that side and stands in that place.
pub fn sections_stand_in_their_places()
    ensures side { (x : Side) (p : ℕ) → side_of (section_at x p) ≡ x }
    ensures place { (x : Side) (p : ℕ) → place_of (section_at x p) ≡ p }
    ensures section { (i : ℕ) → section_at (side_of i) (place_of i) ≡ i }
{}

/// The place of a section is how many sections of its side stand before it.
pub fn places_count_a_side()
    ensures { (i : ℕ) → place_of i
        ≡ count_by (λ k. same_side (side_of k) (side_of i)) (range_with_len 0 i) }
{}

/// A neighbour stands before its section.
pub fn neighbours_stand_before()
    ensures { (i : ℕ) → IfSome (neighbour_of i) (λ n. n < i) }
{}

/// A made network keeps every rule and every bound of a network.
pub fn made_networks_are_networks()
    ensures { (n : ℕ) → 1 ≤ n → n ≤ MAX_SECTIONS → IsNetwork (made n) }
{}

/// The first sections of a made network: the supply side's are 1, 2, 4, 5 and 7 of them, the return side's 3 and 6.
pub fn first_seven_neighbours()
    ensures { (tree_of 7).neighbours ≡ None ∷ Some 0 ∷ None ∷ Some 0 ∷ Some 1 ∷ Some 2 ∷ Some 1 ∷ [] }
{}

/// Of one section all 8 pairs are there, of a second one 61 of 64, and of a third at the fan 7 of 8.
pub fn pairs_of_small_networks()
    ensures one { pair_count (made 1) ≡ 8 }
    ensures two { pair_count (made 2) ≡ 69 }
    ensures three { pair_count (made 3) ≡ 76 }
{}

/// What the second section loses, dPa, and costs, cents, in its second size beside the fourth of the first section.
pub fn a_pair_of_the_second_section()
    ensures { pair_at (made 2) 1 1 3 ≡ Some (record { loss = 149; price = 169 }) }
{}
