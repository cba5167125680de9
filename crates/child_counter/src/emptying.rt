//! The end of the table: every slot is home and is emptied.
ghost use Rattle.std.specs.Prelude.{◌≡◌, ◌<◌, ◌≤◌, [], Some, ℕ, All, nat_lt, slice_get};
ghost use Rattle.std.specs.Vec.{vec_capacity};
ghost use Rattle.duct_definitions.specs.Tree.{section_count};
ghost use Rattle.contract_join.specs.declared.outcome.Outcome.{Outcome as OutcomeData};
ghost use Rattle.child_counter.specs.Passes.{sections_of, times, all_of, StandsIn};
ghost use Rattle.child_counter.specs.Shown.{AreChildrenBefore, one_if};
ghost use Rattle.child_counter.specs.Closed.{IsLast, AreOutcomesOf};

use crate::table::{Held, Inner};
use contract_join::Outcome;

impl<'n> Inner<'n> {
    /// Ends the table, and writes what came of each section into the list, in order.
    pub fn empty(self, pass: Held<'n>, mut outcomes: Vec<Outcome<'n>>) -> Vec<Outcome<'n>>
        requires belongs { pass.table_id ≡ self.table.shared.table_id }
        requires last { IsLast self.table.shared.key.net self.table.shared.key.passes pass.me.0 }
        requires none_yet { outcomes.items ≡ [] }
        requires room { section_count self.table.shared.key.net.tree ≤ vec_capacity outcomes }
        ensures outcomes { AreOutcomesOf self.entry.table.shared.key.net result.items }
        ensures published { (s : ℕ) (o : OutcomeData) → slice_get result.items s ≡ Some o
            → StandsIn (all_of pass.entry.me.0) o }
        ensures once { (s : ℕ) → times s (all_of pass.entry.me.0)
            ≡ one_if (nat_lt s (section_count self.entry.table.shared.key.net.tree)) }
        ensures own { AreChildrenBefore self.entry.table.shared.key.net.tree (sections_of pass.entry.me.0.own) }
        ensures others { All (λ outcomes. AreChildrenBefore self.entry.table.shared.key.net.tree (sections_of outcomes))
            pass.entry.me.0.joined }
    {
        let count = self.table.slot_count();
        let Inner { table } = self;
        let mut closed = table.close_with(pass);
        for k in 0..count {
            let Some(outcome) = closed.take(k) else {
                unreachable!()
            };
            outcomes.push_reserved(outcome);
        }
        closed.free();
        outcomes
    }
}
