//! How a worker goes from a leaf towards the fan.
ghost use Rattle.std.specs.Prelude.{◌≡◌, ℕ, IsTrue};
ghost use Rattle.duct_definitions.specs.Tree.{is_leaf};
ghost use Rattle.schedule_core.specs.Schedule.{is_in};
ghost use Rattle.tree_contract.specs.Turns.{HasTurn, IsFree, SameNotes};

use crate::door::Door;
use crate::joining::outcome_of;
use child_counter::{Counters, Pass, Turn};
use net_model::Network;
use net_model::laws::network_is_valid;
use std::alloc::Global;

/// What all workers share.
#[derive(Drop)]
pub struct Site<'a, 'n, G> {
    pub(crate) alloc: Global,
    pub(crate) net: &'n Network,
    pub(crate) counters: &'a Counters<'n>,
    pub(crate) gate: &'a G,
    ghost same_network: { counters.now.net ≡ net.now },
}

impl<'a, 'n, G: Door> Site<'a, 'n, G> {
    /// Claims the section if it is a leaf, and goes towards the fan while a finish gives a turn.
    pub(crate) fn visit(&self, worker: u32, pass: &mut Pass<'n>, s: u32)
        requires free { IsFree self.now.counters.now pass.old }
        ensures free { IsFree self.now.counters.now pass.new }
        ensures parts { pass.new.view.parts ≡ pass.old.view.parts }
        ensures noted { IsTrue (is_leaf self.now.net.now.tree s) → IsTrue (is_in pass.new.view.noted s) }
        ensures kept { (x : ℕ) → IsTrue (is_in pass.old.view.noted x) → IsTrue (is_in pass.new.view.noted x) }
    {
        if !self.net.tree().is_leaf(s) {
            return;
        }
        if let Some(turn) = self.counters.claim(pass, s) {
            self.climb(worker, pass, turn);
        }
    }

    /// Condenses the turn's section, and those towards the fan whose turn a finish gives.
    fn climb(&self, worker: u32, pass: &mut Pass<'n>, turn: Turn)
        requires turn { HasTurn self.now.counters.now turn pass.old }
        ensures free { IsFree self.now.counters.now pass.new }
        ensures notes { SameNotes pass.old pass.new }
    {
        network_is_valid(self.net);
        let mut turn = turn;
        loop {
            self.gate.tell(worker, turn.section());
            let outcome = outcome_of(self.alloc, self.counters, self.net, pass, &mut turn);
            let Some(next) = self.counters.finish(pass, turn, outcome) else {
                return;
            };
            turn = next;
        }
    }
}
