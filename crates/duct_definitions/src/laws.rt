//! Laws of the definitions. Each is the contract of a call that has nothing to do.
ghost use Rattle.std.specs.Prelude.{◌≡◌, ◌<◌, ℕ};
ghost use Rattle.duct_definitions.specs.declared.design.Design.{Design};
ghost use Rattle.duct_definitions.specs.Airflow.{Airflows, leak_at, with_leak, passing, flow};
ghost use Rattle.duct_definitions.specs.Network.{Network};
ghost use Rattle.duct_definitions.specs.Tree.{Tree, IsTree, section_count};
ghost use Rattle.duct_definitions.specs.Order.{IsBest, NoneMeets};
ghost use Rattle.duct_definitions.specs.declared.airflow.TheConstants.{MAX_FLOW, MAX_LEAK, THOUSANDTHS};
ghost use Rattle.duct_definitions.specs.declared.duct.TheConstants.{MIN_DENSITY, MAX_DENSITY, MAX_LENGTH, MAX_LOCAL, MAX_DEVICE};
ghost use Rattle.duct_definitions.specs.declared.limits.TheConstants.{
  MAX_SECTIONS,
  MAX_SIZES,
  MAX_FANS,
  MAX_PRESSURE,
  MAX_FAN_COST,
  MAX_LOSS,
  MAX_PRICE,
};

/// A network has at most one best design, and none where no design meets the rules.
#[tactic(auto, using(crate::proofs::OrderLaws::best_is_one))]
pub fn best_design_is_one()
    ensures one { (net : Network) (d e : Design) → IsBest net d → IsBest net e → d ≡ e }
    ensures none { (net : Network) (d : Design) → IsBest net d → NoneMeets net → ⊥ }
{}

/// What a section carries is what is to pass it, with its leak: the airflow of a leaf, and what its children carry of
/// any other section.
#[tactic(auto, using(crate::proofs::FlowLaws::flow_of_section))]
pub fn flow_passes_every_section()
    ensures { (t : Tree) (air : Airflows) → IsTree t → (s : ℕ) → s < section_count t
        → flow t air s ≡ with_leak (leak_at air s) (passing (flow t air) t air s) }
{}

/// The limits of a network in numbers, as a file's author meets them: dPa for pressures and losses, cents for money.
pub fn limits_as_numbers()
    ensures sections { MAX_SECTIONS ≡ 500 }
    ensures sizes { MAX_SIZES ≡ 24 }
    ensures fans { MAX_FANS ≡ 64 }
    ensures pressure { MAX_PRESSURE ≡ 20000 }
    ensures fan_cost { MAX_FAN_COST ≡ 100000000000000 }
    ensures loss { MAX_LOSS ≡ 1000000000000000 }
    ensures price { MAX_PRICE ≡ 1000000000000 }
{}

/// The limits of airflows in numbers: l/s for an airflow, thousandths for a leak.
pub fn airflow_limits_as_numbers()
    ensures flow { MAX_FLOW ≡ 200000 }
    ensures leak { MAX_LEAK ≡ 200 }
    ensures whole { THOUSANDTHS ≡ 1000 }
{}

/// The limits of what is known of a section in numbers: g/m3 for a density, mm for a length, thousandths for a local
/// coefficient, dPa for the loss of a device.
pub fn duct_limits_as_numbers()
    ensures density { (MIN_DENSITY ≡ 1) × (MAX_DENSITY ≡ 2000) }
    ensures length { MAX_LENGTH ≡ 1000000 }
    ensures local { MAX_LOCAL ≡ 1000000 }
    ensures device { MAX_DEVICE ≡ 20000 }
{}

/// Leaks of 20, 50 and 0 thousandths: 150 l/s at a leaf become 158, 250 stay 250, and the 408 that are to pass the
/// section before them become 417.
pub fn leaks_of_a_branch()
    ensures first { with_leak 50 150 ≡ 158 }
    ensures second { with_leak 0 250 ≡ 250 }
    ensures trunk { with_leak 20 408 ≡ 417 }
{}
