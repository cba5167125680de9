//! The sum of fronts that are added one by one.
ghost use Rattle.std.specs.Prelude.{◌≡◌, ◌+◌, ◌<◌, ◌^◌, [], ◌∷◌, ◌++◌, IfOk, IfSome, IfNone, IsFalse, IsTrue, List};
ghost use Rattle.std.specs.Option.{ForSome};
ghost use Rattle.pareto_front.specs.declared.point.Point.{Point};
ghost use Rattle.pareto_front.specs.CostFalls.{fronts_with};
ghost use Rattle.pareto_front.specs.FrontSum.{greatest_cost, greatest_together, IsBoth, IsTotal, CostsAlike};

use crate::cost_falls::CostFalls;
use crate::front::Front;
use duct_units::NoMemory;
use std::alloc::Global;
use std::marker::Model;

/// Of fewer points than one in so many needs the fronts are merged; for more, what the cost falls by is kept by need.
const FEW: usize = 16;

/// What all fronts that were added cost together. A contract sees fronts that cost the same together.
///
/// Where many points are to come, each is laid once, at its need. What has no place there is merged: a front is added
/// to shorter ones alone, and sums of like length are added into one, as a binary counter carries. So a long front is
/// moved once, and each point of n fronts of one length about log2(n) times.
#[derive(Drop)]
pub struct FrontSum {
    /// The longer ones first.
    parts: Vec<Front>,
    /// The sum of the fronts that have a place by need.
    falls: Option<CostFalls>,
}

impl Model for FrontSum {
    ghost use Rattle.std.specs.Prelude.{List as Sequence};
    ghost use Rattle.pareto_front.specs.declared.point.Point.{Point};

    ghost Value = { Sequence (Sequence Point) };

    ghost use Rattle.pareto_front.specs.CostFalls.{fronts_with};

    ghost view = { λ sum. fronts_with sum.parts.items sum.falls };
}

impl FrontSum {
    /// No front is added yet. About `count` points are to come, with needs up to `cap`, dPa.
    ///
    /// More points and greater needs are added too, in more time.
    pub fn start(alloc: Global, cap: u64, count: usize) -> Result<FrontSum, NoMemory>
        requires { cap + 1 < 2 ^ 32 }
        ensures { IfOk result (CostsAlike []) }
    {
        let needs = cap as usize + 1;
        let parts = Vec::new(alloc);
        if count < needs / FEW {
            return Ok(FrontSum { parts, falls: None });
        }
        Ok(FrontSum {
            parts,
            falls: Some(CostFalls::new(alloc, needs)?),
        })
    }

    /// Adds one more front. When memory runs out the sum can only be dropped.
    pub fn add(&mut self, alloc: Global, front: &Front) -> Result<(), NoMemory>
        requires { greatest_together (self.old ++ front.now ∷ []) < 2 ^ 64 }
        ensures { IfOk result (λ _. CostsAlike (self.old ++ front.now ∷ []) self.new) }
    {
        if add_by_need(&mut self.falls, front) {
            return Ok(());
        }
        add_part(alloc, &mut self.parts, front)
    }

    /// The front of all that is added; of nothing, the one that needs nothing and costs nothing.
    pub fn total(self, alloc: Global) -> Result<Front, NoMemory>
        requires { greatest_together self < 2 ^ 64 }
        ensures { IfOk result (IsTotal self) }
    {
        let FrontSum { parts, falls } = self;
        let parts = all_parts(alloc, parts, falls)?;
        sum_of(alloc, parts)
    }
}

/// Adds the front by need, if it has a place there.
fn add_by_need(falls: &mut Option<CostFalls>, front: &Front) -> bool
    requires { ForSome falls.old (λ sum. greatest_cost sum + greatest_cost front.now < 2 ^ 64) }
    ensures laid { IsTrue result → (parts : List (List Point)) →
        CostsAlike (fronts_with parts falls.old ++ front.now ∷ []) (fronts_with parts falls.new) }
    ensures kept { IsFalse result → falls.new ≡ falls.old }
{
    match falls {
        Some(sum) => sum.add(front),
        None => false,
    }
}

/// Adds the front to the parts.
fn add_part(alloc: Global, parts: &mut Vec<Front>, front: &Front) -> Result<(), NoMemory>
    requires { greatest_together (parts.old.items ++ front.now ∷ []) < 2 ^ 64 }
    ensures { IfOk result (λ _. CostsAlike (parts.old.items ++ front.now ∷ []) parts.new.items) }
{
    let sum = with_shorter(alloc, parts, front)?;
    let sum = with_last(alloc, parts, sum, 0)?;
    parts.push(sum)?;
    Ok(())
}

/// The parts, and the front of what is added by need.
fn all_parts(
    alloc: Global,
    mut parts: Vec<Front>,
    falls: Option<CostFalls>,
) -> Result<Vec<Front>, NoMemory>
    ensures { IfOk result (λ all. all.items ≡ fronts_with parts.items falls) }
{
    if let Some(sum) = falls {
        parts.push(sum.front(alloc)?)?;
    }
    Ok(parts)
}

/// The sum of all fronts.
fn sum_of(alloc: Global, mut parts: Vec<Front>) -> Result<Front, NoMemory>
    requires { greatest_together parts.items < 2 ^ 64 }
    ensures { IfOk result (λ sum. CostsAlike parts.items (sum ∷ [])) }
{
    let Some(mut sum) = parts.pop() else {
        return Front::zero(alloc);
    };
    while let Some(last) = parts.pop() {
        sum = in_one(alloc, &last, &sum)?;
    }
    Ok(sum)
}

/// The front and all last ones that are no longer, which are taken away, in one.
fn with_shorter(alloc: Global, parts: &mut Vec<Front>, front: &Front) -> Result<Front, NoMemory>
    requires { greatest_together (parts.old.items ++ front.now ∷ []) < 2 ^ 64 }
    ensures { IfOk result (λ sum.
        CostsAlike (parts.old.items ++ front.now ∷ []) (parts.new.items ++ sum ∷ [])) }
{
    let length = front.points().len();
    let Some(last) = pop_within(parts, length) else {
        return Front::copied(alloc, front.points());
    };
    let shorter = with_last(alloc, parts, last, length)?;
    in_one(alloc, &shorter, front)
}

/// The sum and all last fronts that are no longer than it, or have at most so many points, in one; they are taken away.
fn with_last(
    alloc: Global,
    parts: &mut Vec<Front>,
    mut sum: Front,
    length: usize,
) -> Result<Front, NoMemory>
    requires { greatest_together (parts.old.items ++ sum ∷ []) < 2 ^ 64 }
    ensures { IfOk result (λ all.
        CostsAlike (parts.old.items ++ sum ∷ []) (parts.new.items ++ all ∷ [])) }
{
    while let Some(last) = pop_within(parts, length.max(sum.points().len())) {
        sum = in_one(alloc, &last, &sum)?;
    }
    Ok(sum)
}

/// The two fronts in one.
fn in_one(alloc: Global, first: &Front, second: &Front) -> Result<Front, NoMemory>
    requires { greatest_cost first.now + greatest_cost second.now < 2 ^ 64 }
    ensures { IfOk result (IsBoth first.now second.now) }
{
    Front::both(alloc, first, second)
}

/// The last front, taken away, if it has at most so many points.
fn pop_within(parts: &mut Vec<Front>, length: usize) -> Option<Front>
    ensures some { IfSome result (λ last. parts.old.items ≡ parts.new.items ++ last ∷ []) }
    ensures none { IfNone result (parts.new.items ≡ parts.old.items) }
{
    if parts.last()?.points().len() > length {
        return None;
    }
    parts.pop()
}
