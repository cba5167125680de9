//! Tasks dealt to hands, each of which steals from the deques of the others.
ghost use Rattle.std.specs.Prelude.{◌≡◌, ◌≢◌, ℕ, ◌<◌, ◌≤◌, [], length, map, IfOk, OnOk, vec_len};
ghost use Rattle.std.specs.List.{sum_by};
ghost use mathlib.Core.Option.{some};
ghost use lib.ListN.{get_elem?};
ghost use Rattle.steal_pool.specs.Rule.{deque_view, all_parts, times};
ghost use Rattle.steal_pool.specs.Ends.{own_view};
ghost use Rattle.steal_pool.specs.Hands.{HandView, fixed_of};
ghost use Rattle.steal_pool.specs.Deals.{share_of, Starts, IsDealt, OfOneDeal};
ghost use Rattle.steal_pool.specs.Dealing.{HandedOver, IsAlone, dealt_of};

use crate::deque::OwnDeque;
use crate::hand::Hand;
use duct_units::{List, NoMemory};
use std::alloc::Global;

/// Deals the tasks to `n` hands, each with a deque of its share and a stealer of every other.
///
/// The share of hand i is the tasks at the places p from 0 with `p % n == i`, in order.
pub fn deal(alloc: Global, tasks: &[u32], n: u32) -> Result<List<Hand>, NoMemory>
    requires { (0 < n) × (n ≤ 32) }
    ensures count { IfOk result (λ hands. length hands ≡ n) }
    ensures dealt { IfOk result (IsDealt tasks.now n) }
    ensures once { IfOk result
        (λ hands. (t : ℕ) → sum_by (λ h. times t h.fixed.share) hands ≡ times t tasks.now) }
{
    let mut hands = start_all(alloc, tasks, n)?;
    connect(&mut hands)?;
    Ok(List::from_vec(hands))
}

/// Hands that reach nowhere yet.
fn start_all(alloc: Global, tasks: &[u32], n: u32) -> Result<Vec<Hand>, NoMemory>
    requires { 0 < n }
    ensures count { IfOk result (λ hands. length hands.items ≡ n) }
    ensures alone { IfOk result
        (λ hands. (i : ℕ) (h : HandView) → get_elem? hands.items i ≡ some h → IsAlone h) }
    ensures starts { IfOk result
        (λ hands. (i : ℕ) (h : HandView) → get_elem? hands.items i ≡ some h → Starts tasks.now n i h) }
{
    let mut hands = Vec::with_capacity(alloc, n as usize)?;
    for i in 0..n {
        hands.push(start(alloc, tasks, n, i)?)?;
    }
    Ok(hands)
}

/// A hand that reaches nowhere yet.
fn start(alloc: Global, tasks: &[u32], n: u32, i: u32) -> Result<Hand, NoMemory>
    requires { 0 < n }
    ensures alone { IfOk result (λ h. IsAlone h) }
    ensures starts { IfOk result (λ h. Starts tasks.now n i h) }
{
    let share = cut_share(alloc, tasks, n, i)?;
    let own = load(alloc, share.as_slice())?;
    let taken = Vec::with_capacity(alloc, tasks.len())?;
    Ok(Hand {
        own,
        others: Vec::new(alloc),
        first: i,
        share,
        given: 0,
        budget: tasks.len(),
        taken,
    })
}

/// The tasks whose place leaves the rest `i` by `n`.
fn cut_share(alloc: Global, tasks: &[u32], n: u32, i: u32) -> Result<Vec<u32>, NoMemory>
    requires { 0 < n }
    ensures { IfOk result (λ share. share.items ≡ share_of tasks.now n i) }
{
    let mut share = Vec::new(alloc);
    for p in 0..tasks.len() {
        if p % n as usize == i as usize {
            share.push(tasks[p])?;
        }
    }
    Ok(share)
}

/// A deque of the tasks. A push that is refused is memory that ran out.
fn load(alloc: Global, tasks: &[u32]) -> Result<OwnDeque, NoMemory>
    ensures { IfOk result (λ own. own_view own ≡ deque_view all_parts [] tasks.now) }
{
    let mut own = OwnDeque::open(alloc, tasks.len())?;
    for task in tasks {
        own.push(*task)?;
    }
    Ok(own)
}

/// Each hand lends a part of its deque to each other.
fn connect(hands: &mut Vec<Hand>) -> Result<(), NoMemory>
    requires few { vec_len hands.old ≤ 32 }
    requires alone { (i : ℕ) (h : HandView) → get_elem? hands.old.items i ≡ some h → IsAlone h }
    ensures same { OnOk result (map dealt_of hands.new.items ≡ map dealt_of hands.old.items) }
    ensures deal { OnOk result (OfOneDeal (map fixed_of hands.new.items)) }
{
    let count = hands.len();
    for i in 0..count {
        for j in 0..count {
            if i != j {
                hand_over(hands, i, j)?;
            }
        }
    }
    Ok(())
}

/// Hand `i` lends a part of its deque to hand `j`.
fn hand_over(hands: &mut Vec<Hand>, i: usize, j: usize) -> Result<(), NoMemory>
    requires within { (i < vec_len hands.old) × (j < vec_len hands.old) }
    requires two { i ≢ j }
    requires parts { (h : HandView) → get_elem? hands.old.items i ≡ some h → 1 < h.fixed.parts }
    ensures { OnOk result (HandedOver i j hands.old.items hands.new.items) }
{
    let reach = hands[i].lend()?;
    hands[j].accept(reach)?;
    Ok(())
}
