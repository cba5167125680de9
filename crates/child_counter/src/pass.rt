//! A pass of the counters, and the turn that it may hold.
ghost use Rattle.std.specs.Prelude.{◌≡◌};
ghost use Rattle.child_counter.specs.Public.{finished_of};

use crate::table::Held;
use std::marker::Model;

/// What one worker has: the right to make steps, and the sections that it finished.
#[derive(Drop)]
pub struct Pass<'n> {
    pub(crate) seat: Held<'n>,
    pub(crate) finished: Vec<u32>,
    /// Whether a child is handed out.
    pub(crate) away: bool,
}

impl<'n> Model for Pass<'n> {
    ghost use Rattle.std.specs.Vec.{vec_capacity};
    ghost use Rattle.child_counter.specs.Public.{PassData, IsPass};

    ghost Value = { PassData };

    ghost view = { λ p. record { id = p.seat.table_id; view = p.seat.me.0; away = p.away } };

    ghost invariant = { λ p. IsPass p.seat.me.0 p.seat.me.1 p.finished.items (vec_capacity p.finished) p.away };
}

impl<'n> Pass<'n> {
    /// The sections that it finished, in the order of the finishes.
    pub fn finished(&self) -> &[u32]
        ensures { result.now ≡ finished_of self.now }
    {
        self.finished.as_slice()
    }
}

/// The right to condense a section.
#[derive(Drop)]
pub struct Turn {
    pub(crate) section: u32,
}

impl Model for Turn {
    ghost use Rattle.std.specs.Prelude.{ℕ};

    ghost Value = { ℕ };

    ghost view = { λ turn. turn.section };
}

impl Turn {
    /// The section, from 0 in file order.
    pub fn section(&self) -> u32
        ensures { result ≡ self.now }
    {
        self.section
    }
}
