//! What holds after every list of events.
ghost use Rattle.std.specs.Prelude.{◌≡◌, List as Sequence, IfOk};
ghost use Rattle.duct_definitions.specs.Tree.{Tree, IsTree};
ghost use Rattle.schedule_core.specs.declared.events.Event.{Event as EventData};
ghost use Rattle.schedule_core.specs.CoreFields.{IsCoreOf};
ghost use Rattle.schedule_core.specs.Schedule.{state_after};
ghost use Rattle.schedule_core.specs.Claims.{claims_of};
ghost use Rattle.schedule_core.specs.Orderly.{AreDistinct, IsOrderly};

use crate::events::Event;
use crate::schedule::Core;
use air_tree::AirTree;
use duct_units::{List, NoMemory};
use std::alloc::Global;

/// What holds after every interleaving of claims and finishes.
pub fn every_interleaving_is_orderly()
    ensures orderly { (t : Tree) (events : Sequence EventData) → IsTree t → IsOrderly t (state_after t events) }
    ensures once { (t : Tree) (events : Sequence EventData) → IsTree t → AreDistinct (claims_of t events) }
{}

/// The core to which these events happened in turn. An event that is refused is skipped.
pub fn after(alloc: Global, tree: &AirTree, events: &List<Event>) -> Result<Core, NoMemory>
    ensures state { IfOk result (λ core. core.state ≡ state_after tree.now events.now) }
    ensures orderly { IfOk result (λ core. IsOrderly tree.now core.state) }
    ensures once { IfOk result (λ _. AreDistinct (claims_of tree.now events.now)) }
    ensures own { IfOk result (IsCoreOf tree.now) }
{
    let mut core = Core::new(alloc, tree)?;
    for event in events.as_slice() {
        let _ = core.step(tree, *event);
    }
    Ok(core)
}
