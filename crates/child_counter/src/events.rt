//! The steps that are events of the schedule: a claim is one swap, a finish one decrement.
ghost use Rattle.std.specs.Prelude.{◌≡◌, ◌<◌, [], ◌∷◌, Some, None, IsTrue};
ghost use Rattle.duct_definitions.specs.Tree.{section_count, neighbour, is_leaf};
ghost use Rattle.contract_join.specs.Outcomes.{IsOutcomeOf};
ghost use Rattle.child_counter.specs.Passes.{claimed_view, finished_view};
ghost use Rattle.child_counter.specs.Steps.{Happens, IsClaim, IsFinish, counted_word, turn_if, own_slot, with_child};

use crate::rule::{Claim, FinishAtFan, FinishBelow};
use crate::table::{Held, Inner};
use contract_join::Outcome;

impl<'n> Inner<'n> {
    /// Claims a leaf, by one swap of its word with 0, and answers whether it was unclaimed.
    pub fn claim(&self, pass: &mut Held<'n>, leaf: u32) -> bool
        requires belongs { pass.old.table_id ≡ self.now.table.shared.table_id }
        requires leaf { IsTrue (is_leaf self.now.table.shared.key.net.tree leaf) }
        requires free { pass.old.me.0.turn ≡ None }
        requires part { 0 < pass.old.me.0.parts }
        ensures belongs { pass.new.table_id ≡ pass.old.table_id }
        ensures me { pass.new.me ≡
            (claimed_view leaf (turn_if result leaf) pass.old.me.0, own_slot (turn_if result leaf) pass.old.me.1) }
        ensures event { Happens pass.old.me.0 pass.new.me.0 leaf (IsClaim pass.old.me.0.net leaf result) }
    {
        self.table.shared.swap::<Claim>(pass, leaf as usize, 0) == 1
    }

    /// Lays an outcome into the own slot of the turn's section. It is no step.
    pub fn lay(&self, pass: &mut Held<'n>, s: u32, outcome: Outcome<'n>)
        requires belongs { pass.old.table_id ≡ self.now.table.shared.table_id }
        requires held { pass.old.me.1 ≡ with_child pass.old.me.0.out ((s, None) ∷ []) }
        ensures belongs { pass.new.table_id ≡ pass.old.table_id }
        ensures view { pass.new.me.0 ≡ pass.old.me.0 }
        ensures held { pass.new.me.1 ≡ with_child pass.old.me.0.out ((s, Some outcome.entry) ∷ []) }
    {
        pass.turn();
        let _none = self.table.shared.exchange(pass, s as usize, Some(outcome));
        pass.turn();
    }

    /// Finishes section `s`, whose turn the pass has, by one decrement of the word of its neighbour `n`, and answers
    /// whether that was 1.
    pub fn finish_below(&self, pass: &mut Held<'n>, s: u32, n: u32, outcome: Outcome<'n>) -> bool
        requires belongs { pass.old.table_id ≡ self.now.table.shared.table_id }
        requires part { 0 < pass.old.me.0.parts }
        requires section { s < section_count self.now.table.shared.key.net.tree }
        requires turn { pass.old.me.0.turn ≡ Some s }
        requires neighbour { neighbour self.now.table.shared.key.net.tree s ≡ Some n }
        requires held { pass.old.me.1 ≡ with_child pass.old.me.0.out ((s, None) ∷ []) }
        requires fits { IsOutcomeOf self.now.table.shared.key.net s outcome }
        ensures belongs { pass.new.table_id ≡ pass.old.table_id }
        ensures me { pass.new.me ≡
            (finished_view (Some outcome.entry) (turn_if result n) pass.old.me.0, own_slot (turn_if result n) []) }
        ensures event { Happens pass.old.me.0 pass.new.me.0 n
            (IsFinish pass.old.me.0.net s (turn_if result n)) }
    {
        self.lay(pass, s, outcome);
        self.table
            .shared
            .fetch_sub::<FinishBelow>(pass, n as usize, 1)
            == 1
    }

    /// Finishes section `s` at the fan, whose turn the pass has, by one decrement of the roots' word.
    pub fn finish_at_fan(&self, pass: &mut Held<'n>, s: u32, outcome: Outcome<'n>)
        requires belongs { pass.old.table_id ≡ self.now.table.shared.table_id }
        requires part { 0 < pass.old.me.0.parts }
        requires section { s < section_count self.now.table.shared.key.net.tree }
        requires turn { pass.old.me.0.turn ≡ Some s }
        requires root { neighbour self.now.table.shared.key.net.tree s ≡ None }
        requires held { pass.old.me.1 ≡ with_child pass.old.me.0.out ((s, None) ∷ []) }
        requires fits { IsOutcomeOf self.now.table.shared.key.net s outcome }
        ensures belongs { pass.new.table_id ≡ pass.old.table_id }
        ensures me { pass.new.me ≡ (finished_view (Some outcome.entry) None pass.old.me.0, []) }
        ensures event { Happens pass.old.me.0 pass.new.me.0 (section_count self.now.table.shared.key.net.tree)
            (IsFinish pass.old.me.0.net s None) }
    {
        self.lay(pass, s, outcome);
        let roots = self.table.word_count() - 1;
        self.table.shared.fetch_sub::<FinishAtFan>(pass, roots, 1);
    }
}
