//! Calls on fronts.
ghost use Rattle.std.specs.Prelude.{◌≤◌, IfOk, IsTrue, All};
ghost use Rattle.pareto_front.specs.FrontSum.{greatest_together};

use duct_units::NoMemory;
use pareto_front::laws::sums_fit;
use pareto_front::{Front, FrontSum, Point};
use std::alloc::Global;
use std::test::Fail;

/// A case a line: the answer, a bar, a front, a call and what it takes. A point is its need and its cost, and a
/// shift takes the loss and the price, and the cap.
const CASES: &str = "
The cost of the last point within the budget.
none | 10:50 30:20 cheapest 0
none | 10:50 30:20 cheapest 9
50 | 10:50 30:20 cheapest 10
50 | 10:50 30:20 cheapest 29
20 | 10:50 30:20 cheapest 30
20 | 10:50 30:20 cheapest 31
none | none cheapest 18446744073709551615
0 | 0:0 cheapest 0

10 + 5 = 15 and 50 + 3 = 53; 30 + 5 = 35 and 20 + 3 = 23. What needs more than the cap isn't kept.
15:53 35:23 | 10:50 30:20 shift 5:3 18446744073709551615
15:53 35:23 | 10:50 30:20 shift 5:3 35
15:53 | 10:50 30:20 shift 5:3 34
15:53 | 10:50 30:20 shift 5:3 33
15:53 | 10:50 30:20 shift 5:3 15
none | 10:50 30:20 shift 5:3 14
none | 10:50 30:20 shift 5:3 4

Either keeps the cheaper. Equal needs at 10, equal costs of 20; one ends where the other begins.
10:40 25:20 | 10:50 30:20 either 10:40 25:20
10:40 25:20 | 10:40 25:20 either 10:50 30:20
10:50 30:20 | 10:50 30:20 either none
10:50 30:19 40:1 | 10:50 30:20 either 30:19 40:1

Both add costs, and not needs. 50 + 7 = 57 and 20 + 7 = 27.
20:57 30:27 | 10:50 30:20 both 20:7
20:57 30:27 | 20:7 both 10:50 30:20
none | 10:50 30:20 both none
10:50 30:20 | 0:0 both 10:50 30:20

Equal needs: 50 + 40 = 90 at 10, 50 + 20 = 70 at 25, 20 + 20 = 40 at 30.
10:90 25:70 30:40 | 10:50 30:20 both 10:40 25:20

One ends where the other begins: 20 + 19 = 39 and 20 + 1 = 21.
30:39 40:21 | 10:50 30:20 both 30:19 40:1

A sum is for needs up to a cap and for so many points: with few it merges, else each point is laid at its need.
0:0 | 900 0 sum nothing
0:0 | 40 9 sum nothing
10:50 30:20 | 900 9 sum 10:50 30:20
10:50 30:20 | 30 9 sum 10:50 30:20
none | 40 9 sum none
none | 40 9 sum 10:50 30:20 + none + 20:7

50 + 7 = 57 and 20 + 7 = 27, with the later one first too, and where a need has no place.
20:57 30:27 | 900 9 sum 10:50 30:20 + 20:7
20:57 30:27 | 30 9 sum 10:50 30:20 + 20:7
20:57 30:27 | 30 9 sum 20:7 + 10:50 30:20
20:57 30:27 | 29 9 sum 20:7 + 10:50 30:20
20:57 30:27 | 19 9 sum 20:7 + 10:50 30:20

Equal needs and a shared fall: 50 + 40 + 9 = 99 at 10, 70 + 9 = 79 at 25, 20 + 20 + 5 = 45 at 30, 20 + 20 + 1 = 41.
10:99 25:79 30:45 31:41 | 900 9 sum 10:50 30:20 + 10:40 25:20 + 10:9 30:5 31:1
10:99 25:79 30:45 31:41 | 31 9 sum 10:50 30:20 + 10:40 25:20 + 10:9 30:5 31:1

All of two fronts lies below the first need of the third: 20 + 20 + 9 = 49 at 40.
40:49 41:43 | 900 9 sum 10:50 30:20 + 10:40 25:20 + 40:9 41:3
40:49 41:43 | 41 9 sum 10:50 30:20 + 10:40 25:20 + 40:9 41:3
40:49 41:43 | 41 9 sum 40:9 41:3 + 10:50 30:20 + 10:40 25:20
";

#[test]
fn a_call_gives_what_is_worked_by_hand(rt: HostRuntime) -> Result<(), Fail> {
    for line in CASES.lines() {
        if let Some((wanted, case)) = line.split_once(" | ") {
            let found = outcome(rt.alloc(), case)?;
            assert_eq!(rt; found.as_str(), wanted, "at {line}");
        }
    }
    Ok(())
}

/// What the call gives.
fn outcome(alloc: Global, case: &str) -> Result<String, Fail> {
    if let Some((front, budget)) = case.split_once(" cheapest ") {
        let front = front_of(alloc, front)?;
        return price(alloc, &front, budget);
    }
    let made = made(alloc, case)?;
    points(alloc, made.points())
}

fn price(alloc: Global, front: &Front, budget: &str) -> Result<String, Fail> {
    match front.cheapest(budget.parse::<u64>()?) {
        Some(cost) => Ok(format!(in alloc; "{cost}")?),
        None => Ok(String::from_str(alloc, "none")?),
    }
}

/// The front that the call makes.
fn made(alloc: Global, case: &str) -> Result<Front, Fail> {
    if let Some((front, moved)) = case.split_once(" shift ") {
        return shifted(alloc, front, moved);
    }
    if let Some((a, b)) = case.split_once(" either ") {
        return either(alloc, a, b);
    }
    if let Some((bounds, fronts)) = case.split_once(" sum ") {
        return sum(alloc, bounds, fronts);
    }
    let (a, b) = case.split_once(" both ").ok_or("no call")?;
    both(alloc, a, b)
}

/// The front moved by the loss and the price, up to the cap.
fn shifted(alloc: Global, front: &str, moved: &str) -> Result<Front, Fail> {
    let (by, cap) = moved.split_once(' ').ok_or("no cap")?;
    let (loss, price) = by.split_once(':').ok_or("no price")?;
    let (loss, price) = (loss.parse::<u64>()?, price.parse::<u32>()?);
    let cap = cap.parse::<u64>()?;
    let front = front_of(alloc, front)?;
    if !is_cheap(&front) {
        return Err(Fail::from("too dear"));
    }
    Ok(front.shift(alloc, loss, u64::from(price), cap)?)
}

fn either(alloc: Global, a: &str, b: &str) -> Result<Front, Fail> {
    let a = front_of(alloc, a)?;
    let b = front_of(alloc, b)?;
    Ok(Front::either(alloc, &a, &b)?)
}

fn both(alloc: Global, a: &str, b: &str) -> Result<Front, Fail> {
    let a = front_of(alloc, a)?;
    let b = front_of(alloc, b)?;
    if !is_cheap(&a) || !is_cheap(&b) {
        return Err(Fail::from("too dear"));
    }
    sums_fit(&a, &b, 100, 100);
    Ok(Front::both(alloc, &a, &b)?)
}

/// The sum of the fronts, for needs up to a cap and for so many points.
fn sum(alloc: Global, bounds: &str, fronts: &str) -> Result<Front, Fail> {
    let (cap, count) = bounds.split_once(' ').ok_or("no count")?;
    let (cap, count) = (cap.parse::<u16>()?, count.parse::<u16>()?);
    let mut sum = FrontSum::start(alloc, u64::from(cap), usize::from(count))?;
    let mut most: u64 = 0;
    for text in fronts.split(" + ") {
        if text != "nothing" {
            let front = front_of(alloc, text)?;
            most = add_cheap(alloc, &mut sum, &front, most)?;
        }
    }
    if most > 1100 {
        return Err(Fail::from("too dear"));
    }
    Ok(sum.total(alloc)?)
}

/// Adds the front, where all so far cost no more than this together, cents, and answers what all cost at most.
fn add_cheap(alloc: Global, sum: &mut FrontSum, front: &Front, most: u64) -> Result<u64, Fail>
    requires { greatest_together sum.old ≤ most }
    ensures { IfOk result (λ more. greatest_together sum.new ≤ more) }
{
    if most > 1000 || !is_cheap(front) {
        return Err(Fail::from("too dear"));
    }
    sum.add(alloc, front)?;
    Ok(most + 100)
}

/// Whether no point costs more than 100 cents, so that nothing overflows.
fn is_cheap(front: &Front) -> bool
    ensures { IsTrue result → All (λ point. point.cost ≤ 100) front.now }
{
    front.points().iter().all(|point| point.cost <= 100)
}

/// The front of these points, put together one by one.
pub fn front_of(alloc: Global, text: &str) -> Result<Front, Fail> {
    let mut all = shared(Front::empty(alloc));
    for word in text.split_whitespace() {
        if let Some((need, cost)) = word.split_once(':') {
            let point = point_of(alloc, need.parse::<u64>()?, cost.parse::<u64>()?)?;
            all = Front::either(alloc, &all, &point)?;
        }
    }
    Ok(all)
}

fn point_of(alloc: Global, need: u64, cost: u64) -> Result<Front, NoMemory> {
    let free = Front::zero(alloc)?;
    free.shift(alloc, need, cost, u64::MAX)
}

// A front may go to another thread, and several may read it.
fn shared<T: Send + Sync>(value: T) -> T {
    value
}

fn points(alloc: Global, points: &[Point]) -> Result<String, Fail> {
    if points.is_empty() {
        return Ok(String::from_str(alloc, "none")?);
    }
    let mut text = String::new(alloc);
    for point in points {
        write!(text, " {}:{}", point.need, point.cost)?;
    }
    Ok(String::from_str(alloc, text.as_str().trim())?)
}
