//! The fronts that a certificate states, found by section.
ghost use Rattle.std.specs.Prelude.{◌≡◌, ℕ, ◌<◌, ◌≤◌, ◌^◌, IfSome, length, All};
ghost use Rattle.duct_definitions.specs.declared.limits.TheConstants.{MAX_SECTIONS};
ghost use Rattle.duct_definitions.specs.Tree.{section_count, children, roots};
ghost use Rattle.duct_definitions.specs.Network.{size_count, columns, IsNetwork};
ghost use Rattle.pareto_front.specs.Front.{IsFront, cheapest};
ghost use Rattle.pareto_front.specs.Sweep.{next_need};
ghost use Rattle.front_certificate.specs.Certificates.{front_count, front_at, bound, bound_sum};
ghost use Rattle.front_certificate.specs.Tests.{AreFirsts, AreBeside, StayTo};

use duct_definitions::MAX_SECTIONS;
use duct_units::{Side, lesser};
use net_model::Network;
use net_model::laws::network_is_valid;
use pareto_front::{Front, Point};
use std::marker::Model;

/// The fronts of a network's certificate. A contract sees the network and the list of the fronts.
#[derive(Drop)]
pub(crate) struct Stated<'c> {
    net: &'c Network,
    fronts: &'c [Front],
    /// The place of the first front of each section.
    firsts: [usize; MAX_SECTIONS],
}

impl<'c> Model for Stated<'c> {
    ghost use Rattle.front_certificate.specs.Tests.{Stated as StatedData, IsIndexed};

    ghost Value = { StatedData };

    ghost view = { λ a. record { net = a.net.now; fronts = a.fronts.now } };

    ghost invariant = { λ a. IsIndexed a.net.now a.fronts.now a.firsts };
}

impl<'c> Stated<'c> {
    /// The fronts, one for each section and size of its neighbour.
    pub fn new(net: &'c Network, fronts: &'c [Front]) -> Stated<'c>
        requires count { length fronts.now ≡ front_count net.now }
        requires rising { All IsFront fronts.now }
        ensures { result ≡ record { net = net.now; fronts = fronts.now } }
    {
        network_is_valid(net);
        Stated {
            net,
            fronts,
            firsts: firsts(net, fronts.len()),
        }
    }

    /// The network.
    pub fn network(&self) -> &'c Network
        ensures value { result.now ≡ self.now.net }
        ensures network { IsNetwork self.now.net }
    {
        let _ = self.net.tree();
        self.net
    }

    /// Tells a proof that each front is one.
    pub fn tell_fronts(&self)
        ensures { (s g : ℕ) → IsFront (front_at self.now.net self.now.fronts s g) }
    {
        let _ = &self.net;
    }

    /// The sections next outwards of section `s`.
    pub fn children(&self, s: u32) -> &'c [u32]
        requires { s < section_count self.now.net.tree }
        ensures value { result.now ≡ children self.now.net.tree s }
        ensures beside { (k : ℕ) → k < size_count self.now.net s → AreBeside self.now.net k result.now }
        ensures few { length result.now ≤ MAX_SECTIONS }
    {
        self.net.tree().children(s)
    }

    /// The sections of a side at the fan.
    pub fn roots(&self, side: Side) -> &'c [u32]
        ensures value { result.now ≡ roots self.now.net.tree side }
        ensures beside { AreBeside self.now.net 0 result.now }
        ensures few { length result.now ≤ MAX_SECTIONS }
    {
        self.net.tree().roots(side)
    }

    /// The front of section `s` beside size `g` of its neighbour, 0 at the fan.
    pub fn front(&self, s: u32, g: u32) -> &Front
        requires section { s < section_count self.now.net.tree }
        requires beside { g < columns self.now.net s }
        ensures { result.now ≡ front_at self.now.net self.now.fronts s g }
    {
        &self.fronts[self.firsts[s as usize] + g as usize]
    }

    /// What section `s` and all beyond it cost at least beside size `g` of its neighbour within the budget.
    pub fn bound(&self, s: u32, g: u32, budget: u64) -> Option<u64>
        requires section { s < section_count self.now.net.tree }
        requires beside { g < columns self.now.net s }
        ensures value { result ≡ bound self.now.net self.now.fronts s g budget }
        ensures fits { IfSome result (λ cost. cost < 2 ^ 64) }
    {
        self.front(s, g).cheapest(budget)
    }

    /// What the sections beside size `k` cost at least together within the budget, where each has a bound.
    pub fn bound_sum(&self, sections: &[u32], k: u32, budget: u64) -> Option<u128>
        requires beside { AreBeside self.now.net k sections.now }
        requires few { length sections.now ≤ MAX_SECTIONS }
        ensures value { result ≡ bound_sum self.now.net self.now.fronts sections.now k budget }
        ensures fits { IfSome result (λ sum. sum < 2 ^ 100) }
    {
        let mut sum = 0;
        for s in sections {
            let cost = self.bound(*s, k, budget)?;
            sum += u128::from(cost);
        }
        Some(sum)
    }

    /// The next need above the budget among the fronts of the sections beside size `k`.
    pub fn next_need(&self, sections: &[u32], k: u32, budget: u64) -> Option<u64>
        requires { AreBeside self.now.net k sections.now }
        ensures above { IfSome result (λ need. budget < need) }
        ensures stay { StayTo self.now.net self.now.fronts sections.now k budget result }
    {
        let mut next = None;
        for s in sections {
            next = lesser(next, need_above(self.front(*s, k), budget));
        }
        next
    }
}

/// The place of the first front of each section.
fn firsts(net: &Network, count: usize) -> [usize; MAX_SECTIONS]
    requires { count ≡ front_count net.now }
    ensures { AreFirsts net.now result }
{
    let mut firsts = [0; MAX_SECTIONS];
    let mut first = 0;
    for s in 0..net.tree().len() {
        firsts[s as usize] = first;
        first += net.columns(s) as usize;
    }
    firsts
}

/// The first need of the front above the budget.
fn need_above(front: &Front, budget: u64) -> Option<u64>
    ensures above { IfSome result (λ need. budget < need) }
    ensures stay { (other : ℕ) → budget ≤ other → IfSome result (λ need. other < need)
        → cheapest front.now other ≡ cheapest front.now budget }
{
    let points = front.points();
    let within = points.partition_point(|point| point.need <= budget);
    need_at(points, within)
}

/// The need of point `i`, if it is there.
fn need_at(points: &[Point], i: usize) -> Option<u64>
    ensures { result ≡ next_need points.now i }
{
    points.get(i).map(|point| point.need)
}
