//! The way from leasts to the best design.

ghost use Rattle.std.specs.Prelude.{◌≡◌, ◌-◌, ◌*◌, ◌<◌, ◌≤◌, ℕ, Option, Some, None, IsSome, IfSome, length};
ghost use Rattle.duct_units.specs.declared.side.Side.{Side};
ghost use Rattle.duct_units.specs.declared.side.Side.TheVariants.{Supply, Return};
ghost use Rattle.duct_definitions.specs.declared.design.Design.{Design};
ghost use Rattle.duct_definitions.specs.declared.limits.TheConstants.{MAX_PRICE};
ghost use Rattle.duct_definitions.specs.Tree.{IsTree, section_count, neighbour, side, roots};
ghost use Rattle.duct_definitions.specs.Network.{Network, IsNetwork, columns, pair_at, cap};
ghost use Rattle.duct_definitions.specs.Designs.{loss_of, cost};
ghost use Rattle.duct_definitions.specs.Order.{IsBest, NoneMeets};
ghost use Rattle.least_laws.specs.Prices.{sum_of};
ghost use Rattle.least_laws.specs.LeastFromChildren.{least_in, IsExact};
ghost use Rattle.least_laws.specs.Choosing.{side_least, budget_of, cost_at, IsOffered, IsChosen, Attains, IsDescent};

/// With the first fan, then the first turn of a return fan, and then the least supply budget of the least cost, the
/// design that takes at each section the first size with the least price, from the fan outwards, is the best, and has
/// that cost.
pub fn descent_is_best()
    ensures best { (net : Network) → IsTree net.tree → (d : Design) (budget price : ℕ)
        → IsChosen net (side_least net Supply) (side_least net Return) d.fan d.back budget price
        → (left : ℕ → ℕ) → IsDescent net (budget_of net d.fan d.back budget) left d → IsBest net d }
    ensures cost { (net : Network) → IsTree net.tree → (d : Design) (budget price : ℕ)
        → IsChosen net (side_least net Supply) (side_least net Return) d.fan d.back budget price
        → (left : ℕ → ℕ) → IsDescent net (budget_of net d.fan d.back budget) left d → cost net d ≡ price }
{}

/// The exact prices of a side's roots add to the least of the side, which is at most the greatest price for each
/// section of the network beyond each root.
pub fn side_adds_its_roots()
    ensures value { (net : Network) → IsTree net.tree → (x : Side) (budget : ℕ)
        → (cheapest : ℕ → ℕ → ℕ → Option ℕ)
        → ((s : ℕ) → s < section_count net.tree → IsExact net s (cheapest s)) → budget ≤ cap net
        → sum_of (λ r. cheapest r 0 budget) (roots net.tree x) ≡ side_least net x budget }
    ensures bounds { (net : Network) → IsNetwork net → (x : Side) (budget : ℕ)
        → IfSome (side_least net x budget)
        (λ price. price ≤ length (roots net.tree x) * (section_count net.tree * MAX_PRICE)) }
{}

/// Where no fans with any supply budget have a cost, no design meets the rules.
pub fn no_cost_no_design()
    ensures { (net : Network) → IsTree net.tree
        → ((fan : ℕ) (own : Option ℕ) (budget : ℕ) → IsOffered net fan own budget
        → cost_at net (side_least net Supply) (side_least net Return) fan own budget ≡ None)
        → NoneMeets net }
{}

/// The cost with fans and a supply budget, and what is chosen, depend on the prices of both sides within budgets up
/// to the greatest fan pressure alone.
pub fn choice_depends_on_budgets_up_to_cap()
    ensures cost { (net : Network) (supply other back again : ℕ → Option ℕ)
        → ((b : ℕ) → b ≤ cap net → supply b ≡ other b)
        → ((b : ℕ) → b ≤ cap net → back b ≡ again b)
        → (fan : ℕ) (own : Option ℕ) (budget : ℕ) → IsOffered net fan own budget
        → cost_at net supply back fan own budget ≡ cost_at net other again fan own budget }
    ensures chosen { (net : Network) (supply other back again : ℕ → Option ℕ)
        → ((b : ℕ) → b ≤ cap net → supply b ≡ other b)
        → ((b : ℕ) → b ≤ cap net → back b ≡ again b) → (fan : ℕ) (own : Option ℕ) (budget price : ℕ)
        → IsChosen net supply back fan own budget price → IsChosen net other again fan own budget price }
{}

/// The way outwards goes on: the leasts of a side's roots are there where the side's is; some size attains a least
/// that is there; its loss is within the budget, and the leasts of the children beside it are there.
pub fn descent_goes_on()
    ensures root { (net : Network) → IsTree net.tree → (x : Side) (budget r : ℕ)
        → IsSome (side_least net x budget) → r < section_count net.tree
        → neighbour net.tree r ≡ None → side net.tree r ≡ x → IsSome (least_in net r 0 budget) }
    ensures size { (net : Network) → IsTree net.tree → (s g budget : ℕ)
        → s < section_count net.tree → g < columns net s → IsSome (least_in net s g budget)
        → (k : ℕ) × Attains net s g budget k }
    ensures loss { (net : Network) → IsTree net.tree → (s g budget k : ℕ)
        → Attains net s g budget k → loss_of (pair_at net s k g) ≤ budget }
    ensures child { (net : Network) → IsTree net.tree → (s g budget k c : ℕ)
        → Attains net s g budget k → neighbour net.tree c ≡ Some s
        → IsSome (least_in net c k (budget - loss_of (pair_at net s k g))) }
{}
