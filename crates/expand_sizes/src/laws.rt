//! What the fronts of the two sides tell of the network. Each call does nothing: a proof learns its clause where the
//! call stands.
ghost use Rattle.std.specs.Prelude.{◌≡◌, ℕ, ◌≤◌};
ghost use Rattle.duct_units.specs.declared.side.Side.TheVariants.{Supply as supply_side, Return as return_side};
ghost use Rattle.duct_definitions.specs.Network.{cap};
ghost use Rattle.duct_definitions.specs.Order.{NoneMeets};
ghost use Rattle.pareto_front.specs.Front.{cheapest};
ghost use Rattle.least_laws.specs.Choosing.{side_least};
ghost use Rattle.fan_choice.specs.Choice.{IsChoiceOf, NoneIsPriced};
ghost use Rattle.expand_sizes.specs.BestChoice.{IsBestChoice, NoneHasCost};

use fan_choice::Choice;
use least_laws::{choice_depends_on_budgets_up_to_cap, no_cost_no_design};
use net_model::Network;
use net_model::laws::network_is_valid;
use pareto_front::Front;

/// What is chosen for fronts that tell the least price of each side is the best choice of the network.
pub fn choice_of_side_fronts_is_best(net: &Network, supply: &Front, back: &Front, choice: &Choice)
    requires supply { (budget : ℕ) → budget ≤ cap net.now →
        cheapest supply.now budget ≡ side_least net.now supply_side budget }
    requires back { (budget : ℕ) → budget ≤ cap net.now →
        cheapest back.now budget ≡ side_least net.now return_side budget }
    requires choice { IsChoiceOf net.now supply.now back.now choice.now }
    ensures { IsBestChoice net.now choice.now }
{
    choice_depends_on_budgets_up_to_cap();
}

/// Where nothing is priced with fronts that tell the least price of each side, no design meets the rules, and no fans
/// have a cost by the least prices.
pub fn nothing_priced_is_no_design(net: &Network, supply: &Front, back: &Front)
    requires supply { (budget : ℕ) → budget ≤ cap net.now →
        cheapest supply.now budget ≡ side_least net.now supply_side budget }
    requires back { (budget : ℕ) → budget ≤ cap net.now →
        cheapest back.now budget ≡ side_least net.now return_side budget }
    requires unpriced { NoneIsPriced net.now supply.now back.now }
    ensures design { NoneMeets net.now }
    ensures cost { NoneHasCost net.now }
{
    network_is_valid(net);
    choice_depends_on_budgets_up_to_cap();
    no_cost_no_design();
}
