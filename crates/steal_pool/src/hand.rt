//! A hand: what one worker takes its tasks from.
ghost use Rattle.std.specs.Prelude.{◌≡◌, ℕ, ◌<◌, [], IfSome, IfNone, IfOk, OnOk, OnErr, map};
ghost use Rattle.std.specs.List.{sum_by};
ghost use Rattle.steal_pool.specs.Rule.{deque_view, times};
ghost use Rattle.steal_pool.specs.Ends.{own_id, own_view, reach_id, reach_view};
ghost use Rattle.steal_pool.specs.Hands.{Gives, IsDone};
ghost use Rattle.steal_pool.specs.HandFields.{Searched, lent, reaching, got_in};

use crate::deque::{OwnDeque, Reach};
use duct_units::NoMemory;
use std::marker::Model;

/// What one worker has of a pool: its deque, the deques that it steals from, and its share of the tasks.
#[derive(Drop)]
pub struct Hand {
    pub(crate) own: OwnDeque,
    /// In the order of the hands.
    pub(crate) others: Vec<Reach>,
    /// Where the next hand's deque stands among the others.
    pub(crate) first: u32,
    pub(crate) share: Vec<u32>,
    /// How many numbers of the share were answered.
    pub(crate) given: usize,
    /// How many numbers may still come from deques.
    pub(crate) budget: usize,
    pub(crate) taken: Vec<u32>,
}

impl Model for Hand {
    ghost use Rattle.std.specs.Prelude.{◌+◌, ◌-◌, drop, length, map};
    ghost use Rattle.std.specs.Vec.{vec_capacity};
    ghost use Rattle.steal_pool.specs.Hands.{HandView, taken_by};
    ghost use Rattle.steal_pool.specs.HandFields.{IsHand};
    ghost use Rattle.steal_pool.specs.Ends.{own_id, own_view, reach_id};

    ghost Value = { HandView };

    ghost view = { λ h. record {
      fixed = record {
        own = own_id h.own;
        pushed = (own_view h.own).pushed;
        parts = (own_view h.own).parts;
        reaches = map reach_id h.others.items;
        share = h.share.items;
      };
      rest = drop h.given h.share.items;
      left = h.budget + (length h.share.items - h.given);
      taken = h.taken.items;
      views = taken_by h.own h.others.items;
    } };

    ghost invariant = { λ h. IsHand h.own h.others.items h.share.items h.taken.items h.given h.budget
        (vec_capacity h.taken) };
}

impl Hand {
    /// The hand's share of the tasks, in their order.
    pub fn share(&self) -> &[u32]
        ensures { result.now ≡ self.now.fixed.share }
    {
        self.share.as_slice()
    }

    /// The numbers that came from deques, in order; those answered from the share aren't among them.
    pub fn taken(&self) -> &[u32]
        ensures value { result.now ≡ self.now.taken }
        ensures views { (t : ℕ) → times t result.now ≡ sum_by (times t) self.now.views }
    {
        self.taken.as_slice()
    }

    /// A number from a deque, the hand's own first and then each other in turn from the next hand on; where none gave
    /// one, and from then on, the next of the share. It takes no memory.
    pub fn take(&mut self) -> Option<u32>
        ensures some { IfSome result (λ x. Gives self.old self.new x) }
        ensures none { IfNone result (IsDone self.old self.new) }
        ensures kept { self.new.fixed ≡ self.old.fixed }
    {
        if self.budget > 0 {
            if let Some(task) = find(&mut self.own, &mut self.others, self.first) {
                self.budget -= 1;
                let Ok(()) = self.taken.push(task) else {
                    unreachable!()
                };
                return Some(task);
            }
            self.budget = 0;
        }
        self.next_of_share()
    }

    /// The next number of the share.
    fn next_of_share(&mut self) -> Option<u32>
        ensures some { IfSome result (λ x. Gives self.old self.new x) }
        ensures none { IfNone result (IsDone self.old self.new) }
        ensures kept { self.new.fixed ≡ self.old.fixed }
    {
        let task = *self.share.get(self.given)?;
        self.given += 1;
        Some(task)
    }

    /// A reach for another hand.
    pub(crate) fn lend(&mut self) -> Result<Reach, NoMemory>
        requires { 1 < self.old.fixed.parts }
        ensures err { OnErr result (self.new ≡ self.old) }
        ensures ok { IfOk result (λ reach. (self.new ≡ lent self.old) × (reach_id reach ≡ self.old.fixed.own)
            × (reach_view reach ≡ deque_view 1 [] [])) }
    {
        self.own.reach()
    }

    /// Takes a reach that is new.
    pub(crate) fn accept(&mut self, reach: Reach) -> Result<(), NoMemory>
        requires { reach_view reach ≡ deque_view 1 [] [] }
        ensures { OnOk result (self.new ≡ reaching self.old (reach_id reach)) }
    {
        self.others.push(reach)?;
        Ok(())
    }

    /// The hand taken apart: its deque, the reaches and what was taken.
    pub(crate) fn apart(self) -> (OwnDeque, Vec<Reach>, Vec<u32>)
        ensures own { own_id result.0 ≡ self.fixed.own }
        ensures parts { (own_view result.0).parts ≡ self.fixed.parts }
        ensures share { (own_view result.0).pushed ≡ self.fixed.share }
        ensures reaches { map reach_id result.1.items ≡ self.fixed.reaches }
        ensures taken { result.2.items ≡ self.taken }
        ensures counts { (t : ℕ) → got_in t result.0 result.1.items ≡ times t self.taken }
    {
        let Hand {
            own,
            others,
            first: _,
            share: _,
            given: _,
            budget: _,
            taken,
        } = self;
        (own, others, taken)
    }
}

/// What a deque gives: the hand's own first, then each other once, in rising number from the next hand's on.
fn find(own: &mut OwnDeque, others: &mut Vec<Reach>, first: u32) -> Option<u32>
    ensures { Searched own.old own.new others.old.items others.new.items result }
{
    if let Some(task) = own.pop() {
        return Some(task);
    }
    let count = others.len();
    for k in 0..count {
        let at = (first as usize + k) % count;
        if let Some(task) = others[at].steal() {
            return Some(task);
        }
    }
    None
}
