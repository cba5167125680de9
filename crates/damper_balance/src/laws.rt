//! Laws of heads and dampers. Each is the contract of a call that has nothing to do.
ghost use Rattle.duct_definitions.specs.declared.design.Design.{Design};
ghost use Rattle.duct_definitions.specs.Network.{Network, IsNetwork};
ghost use Rattle.duct_definitions.specs.Designs.{Meets};
ghost use Rattle.damper_balance.specs.declared.dampers.Dampers.{Dampers};
ghost use Rattle.damper_balance.specs.Balance.{AreDampers};
ghost use Rattle.damper_balance.specs.FoundPaths.{PathsLeaveSlack, DampersTakeSlack, AreWithinPressure, FoundTakeHeads, IsFoundBalanced};

/// In a design that meets the rules no path loses more than its side's head, and no section has less slack than its
/// neighbour: slacks are what paths leave of the heads, and dampers what they are above each other.
#[tactic(auto, using(crate::proofs::FoundPathLaws::of_slacks))]
pub fn slack_is_shared_along_paths()
    ensures paths { (net : Network) (d : Design) → IsNetwork net → Meets net d → PathsLeaveSlack net d }
    ensures dampers { (net : Network) (d : Design) → IsNetwork net → Meets net d → DampersTakeSlack net d }
{}

/// In a design that meets the rules no side loses more than its head, and no head and no damper is above the pressure
/// of the fan that serves the side.
#[tactic(auto, using(crate::proofs::FoundPathLaws::within_pressure))]
pub fn pressures_are_within_the_fans()
    ensures { (net : Network) (d : Design) → Meets net d → AreWithinPressure net d }
{}

/// The dampers that are found balance every path: on each leaf's way losses and dampers add to the head that is found
/// for its side. With one fan they add on a supply and a return path together to the fan's pressure, and without a
/// return side on each supply path alone; with a return fan on each path to the pressure of its side's fan.
#[tactic(auto, using(crate::proofs::FoundPathLaws::of_found))]
pub fn found_dampers_balance_every_path()
    ensures heads { (net : Network) (d : Design) (found : Dampers) → IsNetwork net → Meets net d
        → AreDampers net d found → FoundTakeHeads net d found }
    ensures pressures { (net : Network) (d : Design) (found : Dampers) → IsNetwork net → Meets net d
        → AreDampers net d found → IsFoundBalanced net d found }
{}
