//! The least of one section.

ghost use Rattle.std.specs.Prelude.{◌≡◌, ◌<◌, ◌≤◌, ◌*◌, ℕ, Option, Some, IfSome, IsSomeAnd};
ghost use Rattle.duct_definitions.specs.declared.limits.TheConstants.{MAX_PRICE};
ghost use Rattle.duct_definitions.specs.Tree.{IsTree, section_count};
ghost use Rattle.duct_definitions.specs.Network.{Network, IsNetwork, columns, cap};
ghost use Rattle.least_laws.specs.Least.{IsLeast};
ghost use Rattle.least_laws.specs.LeastFromChildren.{least_from, least_in, AreLeasts, IsExact};
ghost use Rattle.least_laws.specs.SamePairs.{AgreeBeyond};

/// The least of a section is the least, over its sizes, of what a size costs with the children's leasts beside it.
pub fn least_of_section()
    ensures { (net : Network) → IsTree net.tree → (leasts : ℕ → ℕ → ℕ → Option ℕ) (s g budget : ℕ)
        → s < section_count net.tree → g < columns net s → AreLeasts net s leasts
        → IsLeast net s g budget (least_from net leasts s g budget) }
{}

/// There is one least, which the recursion over the children gives.
pub fn least_is_one()
    ensures one { (net : Network) (s g budget : ℕ) (x y : Option ℕ)
        → IsLeast net s g budget x → IsLeast net s g budget y → x ≡ y }
    ensures there { (net : Network) → IsTree net.tree → (s g budget : ℕ)
        → s < section_count net.tree → g < columns net s
        → IsLeast net s g budget (least_in net s g budget) }
    ensures value { (net : Network) → IsTree net.tree → (s g budget : ℕ) (o : Option ℕ)
        → s < section_count net.tree → g < columns net s
        → IsLeast net s g budget o → o ≡ least_in net s g budget }
    ensures step { (net : Network) → IsTree net.tree → (s g budget : ℕ)
        → s < section_count net.tree → g < columns net s
        → least_in net s g budget ≡ least_from net (least_in net) s g budget }
{}

/// Networks that agree in the pairs of a section and of all beyond it give the section the same least.
pub fn least_depends_on_pairs_beyond()
    ensures least { (net other : Network) (s : ℕ) → AgreeBeyond net other s → IsTree net.tree
        → (g budget : ℕ) (o : Option ℕ) → IsLeast net s g budget o → IsLeast other s g budget o }
    ensures columns { (net other : Network) (s : ℕ) → AgreeBeyond net other s
        → (t : ℕ) → columns other t ≡ columns net t }
    ensures exact { (net other : Network) (s : ℕ) → AgreeBeyond net other s → IsTree net.tree
        → cap other ≡ cap net → (cheapest : ℕ → ℕ → Option ℕ)
        → IsExact net s cheapest → IsExact other s cheapest }
{}

/// Within a greater budget a section costs no more.
pub fn least_never_rises()
    ensures { (net : Network) (s g few many : ℕ) (costly cheap : Option ℕ) → few ≤ many
        → IsLeast net s g few costly → IsLeast net s g many cheap
        → IfSome costly (λ more. IsSomeAnd cheap (λ less. less ≤ more)) }
{}

/// A section and all beyond it cost no more than the greatest price for each section of the network.
pub fn least_bounded()
    ensures { (net : Network) → IsNetwork net → (s g budget price : ℕ)
        → IsLeast net s g budget (Some price) → price ≤ section_count net.tree * MAX_PRICE }
{}
