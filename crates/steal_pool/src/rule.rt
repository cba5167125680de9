//! The rule of a deque, and what each kind of step tells.
ghost use Rattle.std.specs.Prelude.{◌≡◌};

use crate::view::DequeView;
use crossbeam_deque::protocol::{Join, Outcome, Protocol, Split};

/// What holds of a deque and of all views of it between any two steps.
pub struct EachOnce;

impl Protocol<u32, DequeView> for EachOnce {
    ghost use Rattle.std.specs.Prelude.{[]};
    ghost use Rattle.steal_pool.specs.Rule.{IsKept, deque_view, all_parts};

    ghost holds = { IsKept };

    ghost first = { deque_view all_parts [] [] };

    ghost guest = { deque_view 0 [] [] };
}

/// A task is pushed.
pub struct Pushes;

impl Outcome<u32, DequeView> for Pushes {
    ghost use Rattle.steal_pool.specs.Rule.{with_pushed};

    ghost then = { λ v xs w. w ≡ with_pushed v xs };
}

/// A task is popped by the owner, or stolen.
pub struct Takes;

impl Outcome<u32, DequeView> for Takes {
    ghost use Rattle.steal_pool.specs.Rule.{with_got};

    ghost then = { λ v xs w. w ≡ with_got v xs };
}

/// A task is popped by the owner, who learns whether the deque is empty.
pub struct TakesLast;

impl Outcome<u32, DequeView> for TakesLast {
    ghost use Rattle.steal_pool.specs.Rule.{with_got, IsDrained, IsWithinPushed};

    ghost then = { λ v xs w. (w ≡ with_got v xs) × IsWithinPushed w };

    ghost empty = { IsDrained };
}

/// A pass for another hand is made, or taken in.
pub struct Parts;

impl Split<DequeView> for Parts {
    ghost use Rattle.std.specs.Prelude.{[]};
    ghost use Rattle.steal_pool.specs.Rule.{less_part, deque_view};

    ghost left = { less_part };

    ghost right = { λ v. deque_view 1 [] [] };
}

impl Join<DequeView> for Parts {
    ghost use Rattle.std.specs.Prelude.{[]};
    ghost use Rattle.steal_pool.specs.Rule.{joined, deque_view};

    ghost both = { joined };

    ghost spent = { deque_view 0 [] [] };
}
