//! How counters end: the passes become one, the table is emptied, and what came of the sections is sorted.
ghost use Rattle.std.specs.Prelude.{◌≡◌, ◌<◌, ◌≤◌, ◌+◌, ◌++◌, ◌∷◌, [], All, None, Some, IfOk, length, map, slice_get, vec_len};
ghost use Rattle.std.specs.Vec.{vec_capacity};
ghost use Rattle.duct_definitions.specs.Tree.{section_count};
ghost use Rattle.contract_join.specs.declared.outcome.Outcome.TheVariants.{Fronts as HasFronts, NoMemory as HasNone};
ghost use Rattle.child_counter.specs.Passes.{sections_of, all_of, StandsIn};
ghost use Rattle.child_counter.specs.Public.{IsBack, AreBack, finished_of};
ghost use Rattle.child_counter.specs.Closed.{IsLast, TookIn, outcomes_by, fronts_among, refused_among};

use crate::closed::Closed;
use crate::counters::Counters;
use crate::pass::Pass;
use crate::table::Held;
use contract_join::{Outcome, SectionFronts};
use duct_units::{List, NoMemory};
use std::alloc::Global;

impl<'n> Counters<'n> {
    /// Ends the counters. All room is taken before the first pass is joined.
    pub fn close(self, alloc: Global, passes: List<Pass<'n>>) -> Result<Closed<'n>, NoMemory>
        requires { AreBack self passes }
        ensures network { IfOk result (λ closed. closed.net ≡ self.entry.net) }
        ensures lists { IfOk result (λ closed. closed.finished ≡ map finished_of passes.entry) }
        ensures fronts { IfOk result
            (λ closed. All (λ fronts. StandsIn (outcomes_by passes.entry) (HasFronts fronts)) closed.fronts) }
        ensures refused { IfOk result
            (λ closed. All (λ s. StandsIn (outcomes_by passes.entry) (HasNone s)) closed.refused) }
    {
        let count = self.net.tree().len() as usize;
        let outcomes = Vec::with_capacity(alloc, count)?;
        let fronts = Vec::with_capacity(alloc, count)?;
        let refused = Vec::with_capacity(alloc, count)?;
        let mut passes = passes.into_vec();
        let mut lists = Vec::with_capacity(alloc, passes.len())?;
        let Some(last) = passes.pop() else {
            unreachable!()
        };
        let seat = self.gather(passes, last, &mut lists);
        let Counters { inner, net } = self;
        let outcomes = inner.empty(seat, outcomes);
        let (fronts, refused) = sorted(outcomes, fronts, refused);
        Ok(Closed {
            net,
            fronts,
            refused,
            finished: List::from_vec(lists),
        })
    }

    /// Makes the passes one, and puts their lists into `lists`, in the order of the passes.
    fn gather(&self, passes: Vec<Pass<'n>>, last: Pass<'n>, lists: &mut Vec<List<u32>>) -> Held<'n>
        requires back { AreBack self.now (passes.items ++ last ∷ []) }
        requires none_yet { lists.old.items ≡ [] }
        requires room { length passes.items < vec_capacity lists.old }
        ensures belongs { result.table_id ≡ self.now.id }
        ensures last { IsLast self.now.net self.now.passes result.me.0 }
        ensures outcomes { all_of result.me.0 ≡ outcomes_by (passes.entry.items ++ last.entry ∷ []) }
        ensures lists { lists.new.items ≡ map finished_of (passes.entry.items ++ last.entry ∷ []) }
        ensures kept { lists.new.items ≡ map sections_of result.me.0.joined ++ sections_of result.me.0.own ∷ [] }
    {
        let Pass {
            mut seat,
            finished,
            away: _,
        } = last;
        self.join_all(&mut seat, lists, passes);
        lists.push_reserved(List::from_vec(finished));
        seat
    }

    /// Takes in the passes, one after the other.
    fn join_all(&self, seat: &mut Held<'n>, lists: &mut Vec<List<u32>>, passes: Vec<Pass<'n>>)
        requires belongs { seat.old.table_id ≡ self.now.id }
        requires free { seat.old.me.0.turn ≡ None }
        requires part { 0 < seat.old.me.0.parts }
        requires back { All (IsBack self.now) passes.items }
        requires room { vec_len lists.old + vec_len passes ≤ vec_capacity lists.old }
        ensures belongs { seat.new.table_id ≡ seat.old.table_id }
        ensures view { TookIn seat.old.me.0 passes.entry.items seat.new.me.0 }
        ensures lists { lists.new.items ≡ lists.old.items ++ map finished_of passes.entry.items }
        ensures room { (vec_len lists.new ≡ vec_len lists.old + vec_len passes.entry)
            × (vec_capacity lists.old ≤ vec_capacity lists.new) }
    {
        for pass in passes {
            let Pass {
                seat: other,
                finished,
                away: _,
            } = pass;
            self.inner.join(seat, other);
            lists.push_reserved(List::from_vec(finished));
        }
    }
}

/// Sorts the outcomes into fronts and refused sections, for which there is room.
fn sorted<'n>(
    outcomes: Vec<Outcome<'n>>,
    mut fronts: Vec<SectionFronts<'n>>,
    mut refused: Vec<u32>,
) -> (List<SectionFronts<'n>>, List<u32>)
    requires none_yet { (fronts.items ≡ []) × (refused.items ≡ []) }
    requires room { (length outcomes.items ≤ vec_capacity fronts) × (length outcomes.items ≤ vec_capacity refused) }
    ensures fronts { result.0 ≡ fronts_among outcomes.entry.items }
    ensures refused { result.1 ≡ refused_among outcomes.entry.items }
{
    for outcome in outcomes {
        match outcome {
            Outcome::Fronts(section) => fronts.push_reserved(section),
            Outcome::NoMemory(s) => refused.push_reserved(s),
        }
    }
    (List::from_vec(fronts), List::from_vec(refused))
}
