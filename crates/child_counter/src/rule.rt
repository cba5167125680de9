//! The rule of the table, and what each kind of step tells.
ghost use Rattle.std.specs.Prelude.{ℕ};

use crate::view::{Job, PassView};
use atomic_table::{Join, Play, Split, TableRule};
use contract_join::Outcome;
use std::marker::{Brand, PhantomData};

/// What words, slots and passes show at every moment.
pub struct Shown;

impl<'n> TableRule<Option<Outcome<'n>>, PassView<'n>, Job<'n>> for Shown {
    ghost use Rattle.schedule_core.specs.Schedule.{State};
    ghost use Rattle.child_counter.specs.Passes.{fresh_view};
    ghost use Rattle.child_counter.specs.Shown.{Shows};

    ghost holds = { λ job table. (state : State) × Shows job.net job.passes state table.words table.homes table.views };

    ghost first = { λ job. fresh_view job.net job.passes };
}

/// A leaf's word is swapped with 0.
pub struct Claim;

impl<'n> Play<Option<Outcome<'n>>, PassView<'n>> for Claim {
    ghost use Rattle.child_counter.specs.Steps.{Claims};

    ghost then = { Claims };
}

/// A section is finished, and its neighbour's word counted down.
pub struct FinishBelow;

impl<'n> Play<Option<Outcome<'n>>, PassView<'n>> for FinishBelow {
    ghost use Rattle.child_counter.specs.Steps.{FinishesBelow};

    ghost then = { FinishesBelow };
}

/// A section at the fan is finished, and the roots' word counted down.
pub struct FinishAtFan;

impl<'n> Play<Option<Outcome<'n>>, PassView<'n>> for FinishAtFan {
    ghost use Rattle.child_counter.specs.Steps.{FinishesAtFan};

    ghost then = { FinishesAtFan };
}

/// Names the child that comes out.
pub trait Child {
    ghost child: { ℕ };
}

impl Child for Brand {
    ghost child = { 0 };
}

/// A child comes out, and the one that was out goes home.
pub struct TakeChild<C> {
    child: PhantomData<C>,
}

impl<'n, C: Child> Play<Option<Outcome<'n>>, PassView<'n>> for TakeChild<C> {
    ghost use Rattle.child_counter.specs.Steps.{Takes};

    ghost then = { Takes C.child };
}

/// How a pass is cut in two, and how two become one.
pub struct Parts;

impl<'n> Split<PassView<'n>> for Parts {
    ghost use Rattle.child_counter.specs.Passes.{less_view, part_view};

    ghost left = { less_view };

    ghost right = { part_view };
}

impl<'n> Join<PassView<'n>> for Parts {
    ghost use Rattle.child_counter.specs.Passes.{both_views, spent_view};

    ghost both = { both_views };

    ghost spent = { spent_view };
}
