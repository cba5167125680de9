//! The counters, shared by all workers. Each call that changes a word makes one step.
ghost use Rattle.std.specs.Prelude.{◌≡◌, ◌<◌, ◌∷◌, [], true, false, Some, None, IfSome, IsTrue, is_some, length, slice_index};
ghost use Rattle.duct_definitions.specs.Tree.{section_count, neighbour, children, is_leaf};
ghost use Rattle.contract_join.specs.Outcomes.{IsOutcomeOf};
ghost use Rattle.child_counter.specs.Passes.{claimed_view, finished_view, out_view};
ghost use Rattle.child_counter.specs.Steps.{Happens, IsClaim, IsFinish, IsNoEvent, counted_word, own_slot, with_child};
ghost use Rattle.child_counter.specs.Public.{Belongs};

use crate::pass::{Pass, Turn};
use crate::table::{Held, Inner};
use contract_join::Outcome;
use net_model::Network;
use std::marker::Model;

/// The counters of a network's sections.
#[derive(Drop)]
pub struct Counters<'n> {
    pub(crate) inner: Inner<'n>,
    pub(crate) net: &'n Network,
}

impl<'n> Model for Counters<'n> {
    ghost use Rattle.child_counter.specs.Public.{Which, IsCounted};

    ghost Value = { Which };

    ghost view = { λ c. record {
      id = c.inner.table.shared.table_id;
      net = c.net.now;
      passes = c.inner.table.shared.key.passes;
    } };

    ghost invariant = { λ c. IsCounted c.inner.table.shared.key
        (record { id = c.inner.table.shared.table_id; net = c.net.now; passes = c.inner.table.shared.key.passes }) };
}

impl<'n> Counters<'n> {
    /// Claims a leaf. None comes exactly where it was claimed already. With either answer the pass notes the leaf as
    /// found claimed.
    pub fn claim(&self, pass: &mut Pass<'n>, leaf: u32) -> Option<Turn>
        requires belongs { Belongs self.now pass.old }
        requires leaf { IsTrue (is_leaf self.now.net.tree leaf) }
        requires free { pass.old.view.turn ≡ None }
        ensures belongs { Belongs self.now pass.new }
        ensures turn { IfSome result (λ turn. turn ≡ leaf) }
        ensures within { IfSome result (λ turn. turn < section_count self.now.net.tree) }
        ensures view { pass.new.view ≡ claimed_view leaf result pass.old.view }
        ensures away { pass.new.away ≡ pass.old.away }
        ensures event { Happens pass.old.view pass.new.view leaf (IsClaim self.now.net leaf (is_some result)) }
    {
        if self.inner.claim(&mut pass.seat, leaf) {
            Some(Turn { section: leaf })
        } else {
            None
        }
    }

    /// Hands out what came of child `j` of the turn's section, from 0 in rising section number.
    pub fn take_child(&self, pass: &mut Pass<'n>, turn: &mut Turn, j: u32) -> Outcome<'n>
        requires belongs { Belongs self.now pass.old }
        requires turn { pass.old.view.turn ≡ Some turn.old }
        requires child { j < length (children self.now.net.tree turn.old) }
        requires none_out { pass.old.away ≡ false }
        ensures belongs { Belongs self.now pass.new }
        ensures turn { turn.new ≡ turn.old }
        ensures child { IsOutcomeOf self.now.net (slice_index (children self.now.net.tree turn.old) j) result }
        ensures view { pass.new.view ≡ out_view (Some result) pass.old.view }
        ensures away { pass.new.away ≡ true }
        ensures event { Happens pass.old.view pass.new.view turn.old IsNoEvent }
    {
        let child = self.child(turn.section, j);
        let Some(outcome) = self.inner.take_child(&mut pass.seat, turn.section, child) else {
            unreachable!()
        };
        pass.away = true;
        outcome
    }

    /// The child of a section at place `j`.
    fn child(&self, s: u32, j: u32) -> u32
        requires { j < length (children self.now.net.tree s) }
        ensures value { result ≡ slice_index (children self.now.net.tree s) j }
        ensures within { result < section_count self.now.net.tree }
        ensures neighbour { neighbour self.now.net.tree result ≡ Some s }
    {
        self.net.tree().children(s)[j as usize]
    }

    /// Lays the child that is handed out back, unchanged.
    pub fn put_child(&self, pass: &mut Pass<'n>, turn: &mut Turn, child: Outcome<'n>)
        requires belongs { Belongs self.now pass.old }
        requires turn { pass.old.view.turn ≡ Some turn.old }
        requires out { pass.old.away ≡ true }
        requires unchanged { pass.old.view.out ≡ Some child }
        ensures belongs { Belongs self.now pass.new }
        ensures turn { turn.new ≡ turn.old }
        ensures view { pass.new.view ≡ pass.old.view }
        ensures away { pass.new.away ≡ false }
    {
        let number = child.section();
        self.inner
            .put_child(&mut pass.seat, turn.section, number, child);
        pass.away = false;
    }

    /// One decrement: of the neighbour's word, or of the roots'.
    fn count_down(&self, seat: &mut Held<'n>, s: u32, outcome: Outcome<'n>) -> Option<Turn>
        requires belongs { (seat.old.table_id ≡ self.now.id) × (seat.old.me.0.net ≡ self.now.net) }
        requires part { 0 < seat.old.me.0.parts }
        requires section { s < section_count self.now.net.tree }
        requires turn { seat.old.me.0.turn ≡ Some s }
        requires held { seat.old.me.1 ≡ with_child seat.old.me.0.out ((s, None) ∷ []) }
        requires fits { IsOutcomeOf self.now.net s outcome }
        ensures belongs { seat.new.table_id ≡ seat.old.table_id }
        ensures next { IfSome result (λ next. neighbour self.now.net.tree s ≡ Some next) }
        ensures within { IfSome result (λ next. next < section_count self.now.net.tree) }
        ensures me { seat.new.me ≡ (finished_view (Some outcome.entry) result seat.old.me.0, own_slot result []) }
        ensures event { Happens seat.old.me.0 seat.new.me.0 (counted_word self.now.net.tree s)
            (IsFinish self.now.net s result) }
    {
        match self.net.tree().neighbour(s) {
            Some(n) => {
                if self.inner.finish_below(seat, s, n, outcome) {
                    Some(Turn { section: n })
                } else {
                    None
                }
            }
            None => {
                self.inner.finish_at_fan(seat, s, outcome);
                None
            }
        }
    }

    /// Finishes the turn's section with what came of it, and answers its neighbour's turn where it was the last child
    /// that wasn't done. It takes no memory.
    pub fn finish(&self, pass: &mut Pass<'n>, turn: Turn, outcome: Outcome<'n>) -> Option<Turn>
        requires belongs { Belongs self.now pass.old }
        requires turn { pass.old.view.turn ≡ Some turn }
        requires none_out { pass.old.away ≡ false }
        requires fits { IsOutcomeOf self.now.net turn outcome }
        ensures belongs { Belongs self.now pass.new }
        ensures next { IfSome result (λ next. neighbour self.now.net.tree turn ≡ Some next) }
        ensures within { IfSome result (λ next. next < section_count self.now.net.tree) }
        ensures view { pass.new.view ≡ finished_view (Some outcome.entry) result pass.old.view }
        ensures away { pass.new.away ≡ false }
        ensures event { Happens pass.old.view pass.new.view (counted_word self.now.net.tree turn)
            (IsFinish self.now.net turn result) }
    {
        let s = turn.section;
        let next = self.count_down(&mut pass.seat, s, outcome);
        pass.finished.push_reserved(s);
        next
    }
}
