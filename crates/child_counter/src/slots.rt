//! How a turn reads what came of its children: one load takes a child out, and what is laid back is no step.
ghost use Rattle.std.specs.Prelude.{◌≡◌, ◌<◌, [], ◌∷◌, Some, None};
ghost use Rattle.duct_definitions.specs.Tree.{section_count, neighbour};
ghost use Rattle.contract_join.specs.declared.outcome.Outcome.{Outcome as OutcomeData};
ghost use Rattle.contract_join.specs.Outcomes.{section_of, IsOutcomeOf};
ghost use Rattle.child_counter.specs.Passes.{out_view};
ghost use Rattle.child_counter.specs.Steps.{Happens, IsNoEvent, with_child};

use crate::rule::{Child, TakeChild};
use crate::table::{Held, Inner};
use contract_join::Outcome;
use std::marker::Brand;

impl<'n> Inner<'n> {
    /// What came of child `c` of the turn's section `s` comes out, and the child that was out goes home, by one load of
    /// the turn's own word.
    fn take<C: Child>(&self, pass: &mut Held<'n>, s: u32, c: u32)
        requires child { c ≡ C.child }
        requires belongs { pass.old.table_id ≡ self.now.table.shared.table_id }
        requires network { pass.old.me.0.net ≡ self.now.table.shared.key.net }
        requires part { 0 < pass.old.me.0.parts }
        requires section { s < section_count self.now.table.shared.key.net.tree }
        requires turn { pass.old.me.0.turn ≡ Some s }
        requires within { c < section_count self.now.table.shared.key.net.tree }
        requires neighbour { neighbour self.now.table.shared.key.net.tree c ≡ Some s }
        requires held { pass.old.me.1 ≡ with_child pass.old.me.0.out ((s, None) ∷ []) }
        ensures belongs { pass.new.table_id ≡ pass.old.table_id }
        ensures me { (o : OutcomeData)
            × (pass.new.me ≡ (out_view (Some o) pass.old.me.0, (c, Some o) ∷ (s, None) ∷ []))
            × IsOutcomeOf self.now.table.shared.key.net c o }
        ensures event { Happens pass.old.me.0 pass.new.me.0 s IsNoEvent }
    {
        self.table.shared.load::<TakeChild<C>>(pass, s as usize);
    }

    /// Hands out what came of child `c` of the turn's section `s`. None is never answered.
    pub fn take_child(&self, pass: &mut Held<'n>, s: u32, c: u32) -> Option<Outcome<'n>>
        requires belongs { pass.old.table_id ≡ self.now.table.shared.table_id }
        requires network { pass.old.me.0.net ≡ self.now.table.shared.key.net }
        requires part { 0 < pass.old.me.0.parts }
        requires section { s < section_count self.now.table.shared.key.net.tree }
        requires turn { pass.old.me.0.turn ≡ Some s }
        requires within { c < section_count self.now.table.shared.key.net.tree }
        requires neighbour { neighbour self.now.table.shared.key.net.tree c ≡ Some s }
        requires held { pass.old.me.1 ≡ with_child pass.old.me.0.out ((s, None) ∷ []) }
        ensures belongs { pass.new.table_id ≡ pass.old.table_id }
        ensures me { pass.new.me ≡ (out_view result pass.old.me.0, (c, None) ∷ (s, None) ∷ []) }
        ensures fits { (o : OutcomeData) × (result ≡ Some o) × IsOutcomeOf self.now.table.shared.key.net c o }
        ensures event { Happens pass.old.me.0 pass.new.me.0 s IsNoEvent }
    {
        self.take::<Brand>(pass, s, c);
        self.table.shared.exchange(pass, c as usize, None)
    }

    /// Lays what came of child `c` back into its slot, which stays with the pass. It is no step.
    pub fn put_child(&self, pass: &mut Held<'n>, s: u32, c: u32, child: Outcome<'n>)
        requires belongs { pass.old.table_id ≡ self.now.table.shared.table_id }
        requires section { section_of child ≡ c }
        requires unchanged { pass.old.me.0.out ≡ Some child }
        requires held { pass.old.me.1 ≡ (c, None) ∷ (s, None) ∷ [] }
        ensures belongs { pass.new.table_id ≡ pass.old.table_id }
        ensures view { pass.new.me.0 ≡ pass.old.me.0 }
        ensures held { pass.new.me.1 ≡ with_child pass.old.me.0.out ((s, None) ∷ []) }
    {
        let _none = self.table.shared.exchange(pass, c as usize, Some(child));
    }
}
