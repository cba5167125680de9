//! Pieces of work that threads do at once.
ghost use Rattle.std.specs.Prelude.{◌≡◌, ℕ, ◌<◌, length, slice_index_or};
ghost use Rattle.std.specs.List.{All};

use std::thread;
use std::thread::Threads;

/// A piece of work over something that is shared.
pub trait Works<C> {
    /// What holds before the work.
    ghost ready: { C → Self → Type 0 };

    /// What the work does.
    ghost works: { C → Self → Self → Type 0 };

    /// Does the work.
    fn work(&mut self, shared: &C)
        requires { ready shared.now self.old }
        ensures { works shared.now self.old self.new };
}

/// All pieces at once, by so many threads at most.
pub(crate) fn all_at_once<T: Works<C> + Send, C: Sync, R: Threads + Sync>(
    rt: &R,
    shared: &C,
    workers: &mut [T],
    threads: usize,
)
    requires threads { 0 < threads }
    requires ready { All (λ w. T.ready shared.now w) workers.old }
    ensures worked { (i : ℕ) (d : T) → i < length workers.old
        → T.works shared.now (slice_index_or workers.old i d) (slice_index_or workers.new i d) }
    ensures count { length workers.new ≡ length workers.old }
{
    thread::for_each_mut(rt, workers, threads, &|_, w| w.work(shared));
}
