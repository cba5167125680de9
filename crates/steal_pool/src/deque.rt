//! The two ends of a deque: its owner's, and that of a hand that steals from it.
ghost use Rattle.std.specs.Prelude.{◌≡◌, ◌<◌};
ghost use Rattle.crossbeam_deque.specs.Handles.{IsPassOf, stealer_deque, worker_flavor, worker_port, worker_view, view};

use crate::rule::EachOnce;
use crate::view::DequeView;
use crossbeam_deque::{Pass, Stealer, Worker};
use std::alloc::Global;

/// The owner's end of a deque, first in first out.
#[derive(Drop)]
pub struct OwnDeque {
    pub(crate) worker: Worker<u32, Global, DequeView, EachOnce>,
    ghost first_out: { worker_flavor worker ≡ 0 },
    ghost first_seat: { worker_port worker ≡ 0 },
    ghost some_part: { 0 < (worker_view worker).parts },
}

/// A stealer of another hand's deque, and a pass for it.
#[derive(Drop)]
pub struct Reach {
    pub(crate) stealer: Stealer<u32, Global, DequeView, EachOnce>,
    pub(crate) pass: Pass<u32, DequeView>,
    ghost fits: { IsPassOf (stealer_deque stealer) pass },
    ghost one_part: { (view pass).parts ≡ 1 },
}
