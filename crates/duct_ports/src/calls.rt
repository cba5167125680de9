//! Calls that are numbered from 1, of which those of some numbers fail.
ghost use Rattle.std.specs.Prelude.{◌≡◌};
ghost use Rattle.duct_ports.specs.Memory.{not_called, next_fails, after_call};

use duct_units::List;
use std::marker::Model;

/// How many calls were made, and the numbers of those that fail.
#[derive(Drop)]
pub struct Calls {
    fails: List<u32>,
    made: u64,
}

impl Model for Calls {
    ghost use Rattle.duct_ports.specs.Memory.{Numbered};

    ghost Value = { Numbered };

    ghost view = { λ calls. record { fails = calls.fails; made = calls.made } };
}

impl Calls {
    pub fn new(fails: List<u32>) -> Calls
        ensures { result ≡ not_called fails }
    {
        Calls { fails, made: 0 }
    }

    /// Counts a call, and answers whether it fails.
    pub fn next_fails(&mut self) -> bool
        ensures value { result ≡ next_fails self.old }
        ensures counted { self.new ≡ after_call self.old }
    {
        let number = self.made.saturating_add(1);
        self.made = number;
        self.fails
            .as_slice()
            .iter()
            .any(|fails| u64::from(*fails) == number)
    }
}
