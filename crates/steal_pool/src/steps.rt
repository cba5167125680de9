//! The steps of a deque: it is opened, a task is pushed, popped or stolen, a pass is made or taken in.
ghost use Rattle.std.specs.Prelude.{◌≡◌, ◌<◌, [], ◌∷◌, IfOk, OnOk, OnErr, MatchOption};
ghost use Rattle.steal_pool.specs.Rule.{deque_view, with_pushed, with_got, less_part, joined, IsDrained, IsWithinPushed, all_parts};
ghost use Rattle.steal_pool.specs.Ends.{own_id, own_view, reach_id, reach_view};

use crate::deque::{OwnDeque, Reach};
use crate::rule::{Parts, Pushes, Takes, TakesLast};
use crossbeam_deque::{Steal, Worker};
use duct_units::NoMemory;
use std::alloc::Global;

impl OwnDeque {
    /// An empty deque.
    pub(crate) fn open(alloc: Global, capacity: usize) -> Result<OwnDeque, NoMemory>
        ensures { IfOk result (λ own. own_view own ≡ deque_view all_parts [] []) }
    {
        let worker = Worker::fifo_as(alloc, capacity)?;
        Ok(OwnDeque { worker })
    }

    /// Pushes a task, by one step.
    pub(crate) fn push(&mut self, task: u32) -> Result<(), NoMemory>
        ensures same { own_id self.new ≡ own_id self.old }
        ensures ok { OnOk result (own_view self.new ≡ with_pushed (own_view self.old) (task ∷ [])) }
        ensures err { OnErr result (own_view self.new ≡ own_view self.old) }
    {
        self.worker.push_as::<Pushes>(task).map_err(|_| NoMemory)
    }

    /// Takes the first task, by one step.
    pub(crate) fn pop(&mut self) -> Option<u32>
        ensures same { own_id self.new ≡ own_id self.old }
        ensures view { MatchOption result (own_view self.new ≡ own_view self.old)
            (λ task. own_view self.new ≡ with_got (own_view self.old) (task ∷ [])) }
    {
        self.worker.pop_as::<Takes>()
    }

    /// Takes the first task, by one step; None says that nothing was left.
    pub(crate) fn pop_last(&mut self) -> Option<u32>
        ensures same { own_id self.new ≡ own_id self.old }
        ensures view { MatchOption result
            ((own_view self.new ≡ own_view self.old) × IsDrained (own_view self.new))
            (λ task. (own_view self.new ≡ with_got (own_view self.old) (task ∷ [])) × IsWithinPushed (own_view self.new)) }
    {
        self.worker.pop_as::<TakesLast>()
    }

    /// A stealer for another hand, and a pass with one of the parts.
    pub(crate) fn reach(&mut self) -> Result<Reach, NoMemory>
        requires { 1 < (own_view self.old).parts }
        ensures same { own_id self.new ≡ own_id self.old }
        ensures err { OnErr result (own_view self.new ≡ own_view self.old) }
        ensures ok { IfOk result (λ reach. (own_view self.new ≡ less_part (own_view self.old))
            × (reach_id reach ≡ own_id self.old) × (reach_view reach ≡ deque_view 1 [] [])) }
    {
        let stealer = self.worker.stealer()?;
        let pass = self.worker.another::<Parts>();
        Ok(Reach { stealer, pass })
    }

    /// Takes in the pass of a reach into this deque.
    pub(crate) fn absorb(&mut self, reach: Reach)
        requires { reach_id reach ≡ own_id self.old }
        ensures same { own_id self.new ≡ own_id self.old }
        ensures view { own_view self.new ≡ joined (own_view self.old) (reach_view reach) }
    {
        let Reach { stealer: _, pass } = reach;
        self.worker.absorb::<Parts>(pass);
    }
}

impl Reach {
    /// Takes the first task, by one step. That it finds nothing has no cause.
    pub(crate) fn steal(&mut self) -> Option<u32>
        ensures same { reach_id self.new ≡ reach_id self.old }
        ensures view { MatchOption result (reach_view self.new ≡ reach_view self.old)
            (λ task. reach_view self.new ≡ with_got (reach_view self.old) (task ∷ [])) }
    {
        match self.stealer.steal_as::<Takes>(&mut self.pass) {
            Steal::Success(task) => Some(task),
            Steal::Empty => None,
            Steal::Retry => None,
        }
    }
}
