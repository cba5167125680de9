//! How counters begin: the words are counted from the tree, every slot is empty, and the passes are handed out.
ghost use Rattle.std.specs.Prelude.{◌≡◌, ◌<◌, ◌≤◌, [], All, IfOk, OnOk, length, vec_len};
ghost use Rattle.duct_definitions.specs.Tree.{section_count};
ghost use Rattle.child_counter.specs.Passes.{fresh_view, less_view};
ghost use Rattle.child_counter.specs.Public.{IsNew};

use crate::beginning::first_words;
use crate::counters::Counters;
use crate::pass::Pass;
use crate::table::{Held, Inner};
use crate::view::Job;
use atomic_table::Table;
use duct_units::{List, NoMemory};
use net_model::Network;
use std::alloc::Global;

impl<'n> Counters<'n> {
    /// Counters of a network whose sections are all open, and so many passes, each of one part. All room that claims
    /// and finishes need is taken here.
    pub fn start(
        alloc: Global,
        net: &'n Network,
        passes: u32,
    ) -> Result<(Counters<'n>, List<Pass<'n>>), NoMemory>
        requires { 0 < passes }
        ensures network { IfOk result (λ started. started.0.net ≡ net.now) }
        ensures passes { IfOk result (λ started. started.0.passes ≡ passes) }
        ensures count { IfOk result (λ started. length started.1 ≡ passes) }
        ensures fresh { IfOk result (λ started. All (IsNew started.0) started.1) }
    {
        let (counters, seat) = Counters::open(alloc, net, passes)?;
        let all = counters.hand_out(alloc, seat, passes)?;
        Ok((counters, List::from_vec(all)))
    }

    /// The table before the first step, with one pass that has all parts.
    fn open(
        alloc: Global,
        net: &'n Network,
        passes: u32,
    ) -> Result<(Counters<'n>, Held<'n>), NoMemory>
        requires { 0 < passes }
        ensures which { IfOk result (λ opened. (opened.0.net ≡ net.now) × (opened.0.passes ≡ passes)) }
        ensures seat { IfOk result (λ opened. (opened.1.table_id ≡ opened.0.id)
            × (opened.1.me ≡ (fresh_view net.now passes, []))) }
    {
        let words = first_words(alloc, net.tree())?;
        let count = net.tree().len() as usize;
        let job = Job { net, passes };
        let (table, seat) = Table::vacant(alloc, words.as_slice(), count, &job)?;
        let inner = Inner { table };
        Ok((Counters { inner, net }, seat))
    }

    /// The pass that has all parts is cut into so many of one part each.
    fn hand_out(
        &self,
        alloc: Global,
        seat: Held<'n>,
        passes: u32,
    ) -> Result<Vec<Pass<'n>>, NoMemory>
        requires some_pass { 0 < passes }
        requires belongs { seat.table_id ≡ self.now.id }
        requires whole { seat.me ≡ (fresh_view self.now.net passes, []) }
        ensures count { IfOk result (λ all. length all.items ≡ passes) }
        ensures fresh { IfOk result (λ all. All (IsNew self.now) all.items) }
    {
        let mut seat = seat;
        let mut all = Vec::with_capacity(alloc, passes as usize)?;
        for _ in 1..passes {
            all.push(self.part(alloc, &mut seat)?)?;
        }
        all.push(self.last_part(alloc, seat)?)?;
        Ok(all)
    }

    /// A new pass, with one part of the seat.
    fn part(&self, alloc: Global, seat: &mut Held<'n>) -> Result<Pass<'n>, NoMemory>
        requires belongs { seat.old.table_id ≡ self.now.id }
        requires network { seat.old.me.0.net ≡ self.now.net }
        requires parts { 1 < seat.old.me.0.parts }
        ensures seat { OnOk result ((seat.new.table_id ≡ seat.old.table_id)
            × (seat.new.me ≡ (less_view seat.old.me.0, seat.old.me.1))) }
        ensures fresh { IfOk result (IsNew self.now) }
    {
        let finished = Vec::with_capacity(alloc, self.net.tree().len() as usize)?;
        let part = self.inner.split(seat);
        Ok(Pass {
            seat: part,
            finished,
            away: false,
        })
    }

    /// The pass with the last part.
    fn last_part(&self, alloc: Global, seat: Held<'n>) -> Result<Pass<'n>, NoMemory>
        requires belongs { seat.table_id ≡ self.now.id }
        requires whole { seat.me ≡ (fresh_view self.now.net 1, []) }
        ensures fresh { IfOk result (IsNew self.now) }
    {
        let finished = Vec::with_capacity(alloc, self.net.tree().len() as usize)?;
        Ok(Pass {
            seat,
            finished,
            away: false,
        })
    }
}
