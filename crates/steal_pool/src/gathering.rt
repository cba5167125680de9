//! The hands of a deal gathered: what they took, and what is left in their deques.
ghost use Rattle.std.specs.Prelude.{◌≡◌, ℕ, ◌<◌, ◌≤◌, ◌+◌, ◌*◌, List as Sequence, length, map, IfOk, IfSome, vec_len, vec_capacity};
ghost use Rattle.std.specs.List.{sum_by};
ghost use Rattle.steal_pool.specs.Rule.{all_parts, times};
ghost use Rattle.steal_pool.specs.Hands.{fixed_of, all_taken};
ghost use Rattle.steal_pool.specs.Deals.{AreShares, OfOneDeal};
ghost use Rattle.steal_pool.specs.Gathers.{own_got, own_parts, own_pushed};

use crate::deque::OwnDeque;
use crate::hand::Hand;
use crate::parting::{Parted, absorb_all, part_all, take_first};
use duct_units::{List, NoMemory};
use std::alloc::Global;

/// What the hands of a deal took from deques, one hand after another, and what was left in the deques, by hand and then
/// in the deque's order.
#[derive(Drop)]
pub struct Gathered {
    pub taken: List<u32>,
    pub left: List<u32>,
}

/// Gathers all hands of one deal, in order. What they took and what is left are together the dealt tasks, each as often
/// as dealt. All room is taken before the first pass is taken in.
pub fn gather(alloc: Global, hands: List<Hand>) -> Result<Gathered, NoMemory>
    requires some { 0 < length hands }
    requires deal { OfOneDeal (map fixed_of hands) }
    ensures taken { IfOk result (λ g. g.taken ≡ all_taken hands) }
    ensures once { IfOk result (λ g. (tasks : Sequence ℕ) → AreShares tasks (map fixed_of hands)
        → (t : ℕ) → times t g.taken + times t g.left ≡ times t tasks) }
{
    let Some(most) = dealt_count(hands.as_slice()) else {
        return Err(NoMemory);
    };
    let mut left = Vec::with_capacity(alloc, most)?;
    let Parted {
        mut owns,
        rows,
        taken,
    } = part_all(alloc, hands.into_vec())?;
    absorb_all(&mut owns, rows);
    drain_all(owns, &mut left);
    Ok(Gathered {
        taken: List::from_vec(taken),
        left: List::from_vec(left),
    })
}

/// How many tasks were dealt, if a `usize` has room for the number.
fn dealt_count(hands: &[Hand]) -> Option<usize>
    ensures { IfSome result (λ n. n ≡ sum_by (λ h. length h.fixed.share) hands.now) }
{
    let mut count = 0usize;
    for hand in hands {
        count = count.checked_add(hand.share().len())?;
    }
    Some(count)
}

/// Puts what is left in all deques into `left`.
fn drain_all(owns: Vec<OwnDeque>, left: &mut Vec<u32>)
    requires room { vec_len left.old + sum_by (λ own. length (own_pushed own)) owns.items
        ≤ vec_capacity left.old }
    requires parts { sum_by own_parts owns.items ≡ all_parts * length owns.items }
    ensures { (t : ℕ) → times t left.new.items + sum_by (own_got t) owns.items
        ≡ times t left.old.items + sum_by (λ own. times t (own_pushed own)) owns.items }
{
    let mut owns = owns;
    while !owns.is_empty() {
        let own = take_first(&mut owns);
        drain(own, left);
    }
}

/// Puts what is left in a deque into `left`, for which there is room.
fn drain(own: OwnDeque, left: &mut Vec<u32>)
    requires { vec_len left.old + length (own_pushed own) ≤ vec_capacity left.old }
    ensures room { (vec_capacity left.old ≤ vec_capacity left.new)
        × (vec_len left.new ≤ vec_len left.old + length (own_pushed own)) }
    ensures parts { own_parts own ≤ all_parts }
    ensures counts { own_parts own ≡ all_parts → (t : ℕ)
        → times t left.new.items + own_got t own ≡ times t left.old.items + times t (own_pushed own) }
{
    let mut own = own;
    while let Some(task) = own.pop_last() {
        let Ok(()) = left.push(task) else {
            unreachable!()
        };
    }
}
