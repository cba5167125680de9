//! Laws of material lists. Each is the contract of a call that has nothing to do.
ghost use Rattle.std.specs.Prelude.{◌≡◌, ◌≢◌, ◌+◌, ◌++◌, ℕ, List};
ghost use Rattle.std.specs.List.{IsDistinct};
ghost use Rattle.std.specs.Str.{bytes_eq};
ghost use Rattle.duct_definitions.specs.declared.design.Design.{Design};
ghost use Rattle.duct_definitions.specs.Network.{Network};
ghost use Rattle.duct_definitions.specs.DesignText.{listed};
ghost use Rattle.name_index.specs.Places.{is_among};
ghost use Rattle.material_takeoff.specs.Agreement.{IsFirstDifference};
ghost use Rattle.material_takeoff.specs.Uses.{fans_cost, sections_price, order_of_use};

/// The listed total of a design is the sum: a text that a check passes always has a material list.
pub fn listed_total_is_the_sum()
    ensures { (net : Network) (d : Design)
        → (listed net d).total ≡ sections_price (listed net d) + fans_cost (listed net d) }
{}

/// In order of first use each name stands once and none is left out, and names that are used later stand behind.
pub fn names_stand_in_order_of_use()
    ensures once { (names : List (List ℕ)) → IsDistinct bytes_eq (order_of_use names) }
    ensures same { (names : List (List ℕ)) (name : List ℕ) → is_among name (order_of_use names) ≡ is_among name names }
    ensures behind { (before after : List (List ℕ))
        → (rest : List (List ℕ)) × (order_of_use (before ++ after) ≡ order_of_use before ++ rest) }
{}

/// Two lists of names have one first difference, and none where they are the same.
pub fn first_difference_is_one()
    ensures once { (names listed : List (List ℕ)) (n m : ℕ) → IsFirstDifference names listed n
        → IsFirstDifference names listed m → n ≡ m }
    ensures none { (names listed : List (List ℕ)) (n : ℕ) → IsFirstDifference names listed n → names ≢ listed }
{}
