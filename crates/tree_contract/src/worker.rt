//! A worker: its hand of the leaves, and its pass of the counters.
ghost use Rattle.std.specs.Prelude.{◌≡◌};
ghost use Rattle.tree_contract.specs.Turns.{IsFree};
ghost use Rattle.tree_contract.specs.Crews.{NotesLeavesOf};

use crate::climbing::Site;
use crate::crew::Works;
use crate::door::Door;
use child_counter::Pass;
use steal_pool::Hand;

/// What one worker has.
#[derive(Drop)]
pub struct Worker<'n> {
    pub(crate) number: u32,
    pub(crate) hand: Hand,
    pub(crate) pass: Pass<'n>,
}

impl<'a, 'n, G: Door> Works<Site<'a, 'n, G>> for Worker<'n> {
    ghost use Rattle.tree_contract.specs.Crews.{IsReady, HasWorked};

    ghost ready = { λ site w. IsReady site.counters.now w.hand w.pass };

    ghost works = { λ site old new. HasWorked site.counters.now old.hand new.hand new.pass };

    fn work(&mut self, shared: &Site<'a, 'n, G>) {
        answer_all(shared, self.number, &mut self.hand, &mut self.pass);
    }
}

/// Visits each number that the hand answers, until it answers that it has nothing more.
fn answer_all<'a, 'n, G: Door>(
    site: &Site<'a, 'n, G>,
    number: u32,
    hand: &mut Hand,
    pass: &mut Pass<'n>,
)
    requires free { IsFree site.now.counters.now pass.old }
    requires fresh { hand.old.rest ≡ hand.old.fixed.share }
    ensures free { IsFree site.now.counters.now pass.new }
    ensures parts { pass.new.view.parts ≡ pass.old.view.parts }
    ensures hand { hand.new.fixed ≡ hand.old.fixed }
    ensures noted { NotesLeavesOf site.now.counters.now.net.tree hand.old.fixed.share pass.new }
{
    while let Some(task) = hand.take() {
        site.visit(number, pass, task);
    }
}
