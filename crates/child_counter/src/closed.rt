//! What is left of the counters at the end.
ghost use Rattle.std.specs.Prelude.{◌≡◌, ◌<◌, ◌+◌, ◌==◌, ℕ, [], All, length, map, nat_lt, slice_index_or};
ghost use Rattle.std.specs.List.{count_by};
ghost use Rattle.std.specs.List.Sorted.{IsStrictlyIncreasing};
ghost use Rattle.duct_definitions.specs.Tree.{section_count};
ghost use Rattle.contract_join.specs.SectionFronts.{AreFrontsOf};
ghost use Rattle.child_counter.specs.Shown.{one_if};
ghost use Rattle.child_counter.specs.Closed.{AreSorted, AreWhole};

use contract_join::SectionFronts;
use duct_units::List;
use net_model::Network;
use std::marker::Model;

/// What came of each section, and the list of each pass. `Counters::close` alone makes one.
#[derive(Drop)]
pub struct Closed<'n> {
    pub(crate) net: &'n Network,
    pub(crate) fronts: List<SectionFronts<'n>>,
    pub(crate) refused: List<u32>,
    pub(crate) finished: List<List<u32>>,
}

impl<'n> Model for Closed<'n> {
    ghost use Rattle.child_counter.specs.Closed.{ClosedData, AreSorted, AreWhole};

    ghost Value = { ClosedData };

    ghost view = { λ c. record { net = c.net.now; fronts = c.fronts; refused = c.refused; finished = c.finished } };

    ghost invariant = { λ c. AreSorted c.net.now c.fronts c.refused × AreWhole c.net.now.tree c.finished };
}

impl<'n> Closed<'n> {
    /// The fronts of the sections that have fronts, in section order. Together with `refused` they name every section
    /// once.
    pub fn fronts(&self) -> &[SectionFronts<'n>]
        ensures value { result.now ≡ self.now.fronts }
        ensures rising { IsStrictlyIncreasing (map (λ fronts. fronts.section) result.now) }
        ensures network { All (λ fronts. fronts.net ≡ self.now.net) result.now }
        ensures once { (s : ℕ) → count_by (λ fronts. fronts.section == s) result.now
            + count_by (λ x. x == s) self.now.refused ≡ one_if (nat_lt s (section_count self.now.net.tree)) }
        ensures all { self.now.refused ≡ [] → AreFrontsOf self.now.net result.now }
    {
        self.fronts.as_slice()
    }

    /// The sections for which memory ran out, in rising number.
    pub fn refused(&self) -> &[u32]
        ensures value { result.now ≡ self.now.refused }
        ensures rising { IsStrictlyIncreasing result.now }
    {
        self.refused.as_slice()
    }

    /// The sections that a pass finished, in the order of the finishes; passes count as they were given to `close`.
    pub fn finished(&self, pass: u32) -> &[u32]
        requires { pass < length self.now.finished }
        ensures value { result.now ≡ slice_index_or self.now.finished pass [] }
        ensures whole { AreWhole self.now.net.tree self.now.finished }
    {
        self.finished.as_slice()[pass as usize].as_slice()
    }

    /// The fronts of the sections that have fronts, in section order.
    pub fn into_fronts(self) -> List<SectionFronts<'n>>
        ensures value { result ≡ self.entry.fronts }
        ensures all { self.entry.refused ≡ [] → AreFrontsOf self.entry.net result }
    {
        let Closed {
            net: _,
            fronts,
            refused: _,
            finished: _,
        } = self;
        fronts
    }
}
