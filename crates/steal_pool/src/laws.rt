//! What holds of a whole run: hands that were dealt, took in threads of their own and are gathered.
ghost use Rattle.std.specs.Prelude.{◌≡◌, ℕ, ◌<◌, ◌≤◌, ◌+◌, [], length, map, IfOk, slice_index_or};
ghost use Rattle.steal_pool.specs.Rule.{times};
ghost use Rattle.steal_pool.specs.Hands.{HandView, fixed_of};

use crate::dealing::deal;
use crate::gathering::{Gathered, gather};
use crate::hand::Hand;
use duct_units::{List, NoMemory};
use std::alloc::Global;
use std::thread;
use std::thread::Threads;

/// The tasks are dealt to `n` hands, which take in threads of their own until they have nothing to answer, and are
/// gathered: each task comes out as often as it was dealt.
pub fn tasks_come_out_as_often_as_dealt<R: Threads + Sync>(
    rt: &R,
    alloc: Global,
    tasks: &[u32],
    n: u32,
) -> Result<Gathered, NoMemory>
    requires { (0 < n) × (n ≤ 32) }
    ensures { IfOk result (λ g. (t : ℕ) → times t g.taken + times t g.left ≡ times t tasks.now) }
{
    let mut hands = deal(alloc, tasks, n)?.into_vec();
    take_all(rt, hands.as_mut_slice(), n as usize);
    gather(alloc, List::from_vec(hands))
}

/// Each hand takes in a thread until it has nothing to answer.
fn take_all<R: Threads + Sync>(rt: &R, hands: &mut [Hand], workers: usize)
    requires { 0 < workers }
    ensures { (k : ℕ) (d : HandView) → k < length hands.old
        → fixed_of (slice_index_or hands.new k d) ≡ fixed_of (slice_index_or hands.old k d) }
{
    thread::for_each_mut(
        rt,
        hands,
        workers,
        &|_, hand: &mut Hand|
            ensures { hand.new.fixed ≡ hand.old.fixed }
        { finish(hand) },
    );
}

/// The hand takes until it has nothing to answer.
fn finish(hand: &mut Hand)
    ensures fixed { hand.new.fixed ≡ hand.old.fixed }
    ensures rest { hand.new.rest ≡ [] }
{
    while let Some(_) = hand.take() {}
}
