//! Small networks that are worked by hand, each with its best design, or that no design meets the rules, and the
//! printed text.
//!
//! Pressures and losses are in dPa, money in cents. Each theorem is the contract of a call that has nothing to do.
#![tactic(auto)]

ghost use Rattle.std.specs.Prelude.{◌≡◌, [], Some, None};
ghost use Rattle.duct_definitions.specs.Balance.{throttled_loss};
ghost use Rattle.duct_definitions.specs.Designs.{Meets, path_loss};
ghost use Rattle.duct_definitions.specs.DesignText.{text, listed, none_text};
ghost use Rattle.least_laws.specs.Least.{IsLeast};
ghost use Rattle.duct_definitions.specs.Network.{IsNetwork};
ghost use Rattle.duct_definitions.specs.Order.{IsBest, NoneMeets};
ghost use Rattle.worked_designs.specs.OneSection;
ghost use Rattle.worked_designs.specs.FanTooWeak;
ghost use Rattle.worked_designs.specs.NoFan;
ghost use Rattle.worked_designs.specs.TwoSides;
ghost use Rattle.worked_designs.specs.SharedPressure;
ghost use Rattle.worked_designs.specs.ExpensiveSize;
ghost use Rattle.worked_designs.specs.MissingPair;
ghost use Rattle.worked_designs.specs.TieOfFans;
ghost use Rattle.worked_designs.specs.EarlierFan;
ghost use Rattle.worked_designs.specs.FirstSection;
ghost use Rattle.worked_designs.specs.SmallSystem;
ghost use Rattle.worked_designs.specs.LowVelocity;
ghost use Rattle.worked_designs.specs.FanOnEachSide;
ghost use Rattle.worked_designs.specs.TwoFansCheaper;
ghost use Rattle.worked_designs.specs.OneFanFirst;
ghost use Rattle.worked_designs.specs.EarlierOfTwo;
ghost use Rattle.worked_designs.specs.EarlierReturnFan;
ghost use Rattle.worked_designs.specs.NoFanCoversBoth;
ghost use Rattle.worked_designs.specs.NoReturnSide;

/// A fan that gives just the pressure that the section loses is enough.
#[tactic(auto, using(crate::proofs::Printed::one_section))]
pub fn one_section()
    ensures valid { IsNetwork OneSection.network }
    ensures best { IsBest OneSection.network OneSection.design }
    ensures printed { text (listed OneSection.network OneSection.design) ≡ OneSection.printed }
{}

/// A fan that gives 1 dPa less than the section loses is not.
#[tactic(auto, using(crate::proofs::Printed::fan_too_weak))]
pub fn fan_too_weak()
    ensures valid { IsNetwork FanTooWeak.network }
    ensures none { NoneMeets FanTooWeak.network }
    ensures printed { none_text FanTooWeak.network.name [] ≡ FanTooWeak.printed }
{}

/// Without a fan on offer there is no design.
#[tactic(auto, using(crate::proofs::Printed::no_fan))]
pub fn no_fan()
    ensures valid { IsNetwork NoFan.network }
    ensures none { NoneMeets NoFan.network }
    ensures printed { none_text NoFan.network.name [] ≡ NoFan.printed }
{}

/// The return side takes its worst path's loss, and the supply side has the rest of the pressure as its head. What a
/// path leaves of the head is throttled as near to the fan as the other paths allow. The path from t3 loses
/// 20 + 15 + 40 dPa.
#[tactic(auto, using(crate::proofs::Printed::two_sides))]
pub fn two_sides()
    ensures valid { IsNetwork TwoSides.network }
    ensures best { IsBest TwoSides.network TwoSides.design }
    ensures printed { text (listed TwoSides.network TwoSides.design) ≡ TwoSides.printed }
    ensures path { path_loss TwoSides.network TwoSides.design 3 ≡ 75 }
{}

/// The two sides share the fan's pressure. Of equal costs the one with the less worst supply loss is chosen, and
/// pressure that neither side needs is throttled on the supply side.
#[tactic(auto, using(crate::proofs::Printed::shared_pressure))]
pub fn shared_pressure()
    ensures valid { IsNetwork SharedPressure.network }
    ensures best { IsBest SharedPressure.network SharedPressure.design }
    ensures printed { text (listed SharedPressure.network SharedPressure.design)
        ≡ SharedPressure.printed }
{}

/// The cheapest size isn't in the cheapest design where it needs a more expensive fan.
#[tactic(auto, using(crate::proofs::Printed::expensive_size))]
pub fn expensive_size()
    ensures valid { IsNetwork ExpensiveSize.network }
    ensures best { IsBest ExpensiveSize.network ExpensiveSize.design }
    ensures printed { text (listed ExpensiveSize.network ExpensiveSize.design)
        ≡ ExpensiveSize.printed }
{}

/// A design in which a pair isn't there doesn't meet the rules, however cheap its sizes are.
#[tactic(auto, using(crate::proofs::Printed::missing_pair))]
pub fn missing_pair()
    ensures valid { IsNetwork MissingPair.network }
    ensures best { IsBest MissingPair.network MissingPair.design }
    ensures printed { text (listed MissingPair.network MissingPair.design) ≡ MissingPair.printed }
{}

/// Of equal costs the first fan, then the less worst supply loss, then the first size, although it loses more.
#[tactic(auto, using(crate::proofs::Printed::tie_of_fans))]
pub fn tie_of_fans()
    ensures valid { IsNetwork TieOfFans.network }
    ensures best { IsBest TieOfFans.network TieOfFans.design }
    ensures printed { text (listed TieOfFans.network TieOfFans.design) ≡ TieOfFans.printed }
{}

/// Of equal costs the earlier fan comes first, although the later one has the less worst supply loss.
#[tactic(auto, using(crate::proofs::Printed::earlier_fan))]
pub fn earlier_fan()
    ensures valid { IsNetwork EarlierFan.network }
    ensures best { IsBest EarlierFan.network EarlierFan.design }
    ensures printed { text (listed EarlierFan.network EarlierFan.design) ≡ EarlierFan.printed }
{}

/// Of equal costs and losses the sizes of the first section decide before those of the second.
#[tactic(auto, using(crate::proofs::Printed::first_section))]
pub fn first_section()
    ensures valid { IsNetwork FirstSection.network }
    ensures best { IsBest FirstSection.network FirstSection.design }
    ensures printed { text (listed FirstSection.network FirstSection.design)
        ≡ FirstSection.printed }
{}

/// A main section and two branches. Beside the best design stands a more expensive one, which meets the rules too.
#[tactic(auto, using(crate::proofs::Printed::small_systems))]
pub fn small_system()
    ensures valid { IsNetwork SmallSystem.network }
    ensures best { IsBest SmallSystem.network SmallSystem.design }
    ensures printed { text (listed SmallSystem.network SmallSystem.design) ≡ SmallSystem.printed }
    ensures meets { Meets SmallSystem.network SmallSystem.second_design }
    ensures second { text (listed SmallSystem.network SmallSystem.second_design)
        ≡ SmallSystem.second_printed }
{}

/// Where a section has no size left, no design meets the rules, and the text counts what each rule refused.
#[tactic(auto, using(crate::proofs::Printed::low_velocity))]
pub fn low_velocity()
    ensures valid { IsNetwork LowVelocity.network }
    ensures none { NoneMeets LowVelocity.network }
    ensures printed { none_text LowVelocity.network.name LowVelocity.refusals
        ≡ LowVelocity.printed }
{}

/// With a return fan each path takes the pressure of its own side's fan: the supply path from t4 takes 80 dPa and the
/// return path from r2 takes 40. A return fan that gives more may cost less.
#[tactic(auto, using(crate::proofs::Printed::fan_on_each_side))]
pub fn fan_on_each_side()
    ensures valid { IsNetwork FanOnEachSide.network }
    ensures best { IsBest FanOnEachSide.network FanOnEachSide.design }
    ensures printed { text (listed FanOnEachSide.network FanOnEachSide.design)
        ≡ FanOnEachSide.printed }
    ensures supply_path { throttled_loss FanOnEachSide.network FanOnEachSide.design 4 ≡ 80 }
    ensures return_path { throttled_loss FanOnEachSide.network FanOnEachSide.design 6 ≡ 40 }
{}

/// Two fans are cheaper than one that covers both sides.
#[tactic(auto, using(crate::proofs::Printed::two_fans_cheaper))]
pub fn two_fans_cheaper()
    ensures valid { IsNetwork TwoFansCheaper.network }
    ensures best { IsBest TwoFansCheaper.network TwoFansCheaper.design }
    ensures printed { text (listed TwoFansCheaper.network TwoFansCheaper.design)
        ≡ TwoFansCheaper.printed }
{}

/// Of equal costs one fan comes before two.
#[tactic(auto, using(crate::proofs::Printed::one_fan_first))]
pub fn one_fan_first()
    ensures valid { IsNetwork OneFanFirst.network }
    ensures best { IsBest OneFanFirst.network OneFanFirst.design }
    ensures printed { text (listed OneFanFirst.network OneFanFirst.design) ≡ OneFanFirst.printed }
{}

/// Of equal costs the earlier fan comes first, although it needs a return fan and the later one does not.
#[tactic(auto, using(crate::proofs::Printed::earlier_of_two))]
pub fn earlier_of_two()
    ensures valid { IsNetwork EarlierOfTwo.network }
    ensures best { IsBest EarlierOfTwo.network EarlierOfTwo.design }
    ensures printed { text (listed EarlierOfTwo.network EarlierOfTwo.design)
        ≡ EarlierOfTwo.printed }
{}

/// Of equal costs the earlier return fan comes first.
#[tactic(auto, using(crate::proofs::Printed::earlier_return_fan))]
pub fn earlier_return_fan()
    ensures valid { IsNetwork EarlierReturnFan.network }
    ensures best { IsBest EarlierReturnFan.network EarlierReturnFan.design }
    ensures printed { text (listed EarlierReturnFan.network EarlierReturnFan.design)
        ≡ EarlierReturnFan.printed }
{}

/// Where no fan covers both sides, a fan on each side does. The supply side has all of its pressure.
#[tactic(auto, using(crate::proofs::Printed::no_fan_covers_both))]
pub fn no_fan_covers_both()
    ensures valid { IsNetwork NoFanCoversBoth.network }
    ensures best { IsBest NoFanCoversBoth.network NoFanCoversBoth.design }
    ensures printed { text (listed NoFanCoversBoth.network NoFanCoversBoth.design)
        ≡ NoFanCoversBoth.printed }
{}

/// Without a return side a return fan is not taken, even for nothing.
#[tactic(auto, using(crate::proofs::Printed::no_return_side))]
pub fn no_return_side()
    ensures valid { IsNetwork NoReturnSide.network }
    ensures best { IsBest NoReturnSide.network NoReturnSide.design }
    ensures printed { text (listed NoReturnSide.network NoReturnSide.design)
        ≡ NoReturnSide.printed }
{}

/// Within a smaller budget the main section and its branches cost more: main loses 109 dPa and the right branch 283,
/// so below 392 dPa there is no choice, and the cheaper size of the left branch, which loses 487, needs 596 dPa.
pub fn small_system_within_budgets()
    ensures too_little { IsLeast SmallSystem.network 0 0 391 None }
    ensures enough { IsLeast SmallSystem.network 0 0 392 (Some 107400) }
    ensures not_yet { IsLeast SmallSystem.network 0 0 595 (Some 107400) }
    ensures more { IsLeast SmallSystem.network 0 0 596 (Some 102400) }
{}
