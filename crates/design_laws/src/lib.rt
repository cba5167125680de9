//! Laws of designs: what the definitions say of every network. Each is the contract of a call that has nothing to do.
#![tactic(auto)]

ghost use Rattle.std.specs.Prelude.{◌≡◌, ◌⊎◌, [], None};
ghost use Rattle.duct_units.specs.declared.side.Side.TheVariants.{Return};
ghost use Rattle.duct_definitions.specs.declared.design.Design.{Design};
ghost use Rattle.duct_definitions.specs.Designs.{Fits, Meets};
ghost use Rattle.duct_definitions.specs.Network.{Network, IsNetwork};
ghost use Rattle.duct_definitions.specs.Tree.{leaves};
ghost use Rattle.duct_definitions.specs.Order.{Before, IsBest, NoneMeets};
ghost use Rattle.duct_definitions.specs.Balance.{PathsTakeHeads, IsBalanced};

/// A network has a best design, or no design of it meets the rules.
pub fn best_or_none()
    ensures { (net : Network) → ((d : Design) × IsBest net d) ⊎ NoneMeets net }
{}

/// Where there is no return side, the best design has no return fan.
#[tactic(auto, using(crate::proofs::ReturnSide::no_return_fan))]
pub fn return_fan_needs_a_return_side()
    ensures { (net : Network) (d : Design) → leaves net.tree Return ≡ [] → IsBest net d → d.back ≡ None }
{}

/// Of two designs that fit a network exactly one comes before the other, unless they are the same design.
#[tactic(auto, using(crate::proofs::TotalOrder::order))]
pub fn designs_are_in_order()
    ensures total { (net : Network) (d e : Design) → Fits net d → Fits net e
        → (e ≡ d) ⊎ (Before net d e ⊎ Before net e d) }
    ensures one_way { (net : Network) (d e : Design) → Before net d e → Before net e d → ⊥ }
    ensures transitive { (net : Network) (d e f : Design) → Before net d e → Before net e f → Before net d f }
{}

/// In a design that meets the rules losses and dampers balance every path: on each leaf's way they add to the head of
/// its side. With one fan they add on a supply and a return path together to the fan's pressure, and without a return
/// side on each supply path alone; with a return fan on each path to the pressure of its side's fan.
#[tactic(auto, using(crate::proofs::Throttled::balance))]
pub fn dampers_balance_every_path()
    ensures heads { (net : Network) (d : Design) → IsNetwork net → Meets net d → PathsTakeHeads net d }
    ensures pressures { (net : Network) (d : Design) → IsNetwork net → Meets net d → IsBalanced net d }
{}
