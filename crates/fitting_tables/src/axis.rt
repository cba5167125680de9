//! The breakpoints of a table on one axis, and where a ratio lies among them.
ghost use Rattle.std.specs.Prelude.{◌≡◌, ◌<◌, ◌≤◌, ◌&&◌, ◌==◌, [], length, nat_le, nat_lt, insert, slice_get, Some, IsTrue, OnOk, OnErr};
ghost use Rattle.fitting_tables.specs.Breakpoints.{IsAxis, Parts, has_at, with_breakpoint};
ghost use Rattle.fitting_tables.specs.Span.{IsSpan, clamped, span_between, span_of};

use crate::limits::{MAX_BREAKPOINTS, MAX_RATIO};
use duct_units::NoMemory;
use std::alloc::Global;
use std::marker::Model;

/// Breakpoints by rising ratio, thousandths.
#[derive(Drop)]
pub struct Axis {
    points: Vec<u64>,
}

impl Model for Axis {
    ghost use Rattle.std.specs.Prelude.{ℕ, List as Sequence};
    ghost use Rattle.fitting_tables.specs.Breakpoints.{IsAxis};

    ghost Value = { Sequence ℕ };

    ghost view = { λ axis. axis.points.items };

    ghost invariant = { λ axis. IsAxis axis.points.items };
}

/// Where a ratio lies on an axis: between two breakpoints, or on one.
///
/// The weights over the width say how near it is to each; on a breakpoint they are 1 and 0 over the width 1.
#[derive(Clone, Copy)]
pub struct Span {
    /// The breakpoint below, thousandths.
    pub lower: u64,
    /// The breakpoint above, thousandths.
    pub upper: u64,
    /// The weight of the lower one.
    pub lower_weight: u64,
    /// The weight of the upper one.
    pub upper_weight: u64,
    /// Both weights together.
    pub width: u64,
}

impl Axis {
    /// No breakpoint yet.
    pub fn new(alloc: Global) -> Axis
        ensures { result ≡ [] }
    {
        Axis {
            points: Vec::new(alloc),
        }
    }

    /// Whether there is room for the breakpoint, or it is there already.
    pub fn fits(&self, x: u64) -> bool
        ensures { result ≡ nat_le (length (with_breakpoint x self.now)) MAX_BREAKPOINTS }
    {
        fits_among(&self.points, x)
    }

    /// Puts the breakpoint in its place, unless it is there already.
    pub fn add(&mut self, x: u64) -> Result<(), NoMemory>
        requires bound { x ≤ MAX_RATIO }
        requires room { length (with_breakpoint x self.old) ≤ MAX_BREAKPOINTS }
        ensures ok { OnOk result (self.new ≡ with_breakpoint x self.old) }
        ensures err { OnErr result (self.new ≡ self.old) }
    {
        let place = first_not_below(&self.points, x);
        if !has_at(&self.points, place, x) {
            self.points.insert(place, x)?;
        }
        Ok(())
    }

    /// The breakpoints.
    pub fn points(&self) -> &[u64]
        ensures value { result.now ≡ self.now }
        ensures axis { IsAxis result.now }
    {
        &self.points
    }
}

/// Where the ratio lies among the breakpoints, of which there is one.
pub fn span_at(points: &[u64], ratio: u64) -> Span
    requires some { 0 < length points.now }
    requires axis { IsAxis points.now }
    ensures value { result ≡ span_of ratio points.now }
    ensures bounds { IsSpan result }
{
    let x = clamped(points, ratio);
    let place = first_not_below(points, x);
    let upper = points[place];
    if upper == x {
        on_breakpoint(x)
    } else {
        between(x, points[place - 1], upper)
    }
}

// The ratio, or the first or last breakpoint where it lies outside.
fn clamped(points: &[u64], ratio: u64) -> u64
    requires some { 0 < length points.now }
    requires axis { IsAxis points.now }
    ensures { result ≡ clamped ratio points.now }
{
    ratio.min(points[points.len() - 1]).max(points[0])
}

fn on_breakpoint(x: u64) -> Span
    ensures value { result ≡ span_between x x x }
    ensures bounds { IsSpan result }
{
    Span {
        lower: x,
        upper: x,
        lower_weight: 1,
        upper_weight: 0,
        width: 1,
    }
}

fn between(x: u64, lower: u64, upper: u64) -> Span
    requires above { lower < x }
    requires below { x < upper }
    requires bound { upper ≤ MAX_RATIO }
    ensures value { result ≡ span_between x lower upper }
    ensures bounds { IsSpan result }
{
    Span {
        lower,
        upper,
        lower_weight: upper - x,
        upper_weight: x - lower,
        width: upper - lower,
    }
}

fn fits_among(points: &[u64], x: u64) -> bool
    requires { IsAxis points.now }
    ensures { result ≡ nat_le (length (with_breakpoint x points.now)) MAX_BREAKPOINTS }
{
    let place = first_not_below(points, x);
    points.len() < MAX_BREAKPOINTS || has_at(points, place, x)
}

// The place of the first breakpoint that isn't below.
fn first_not_below(points: &[u64], x: u64) -> usize
    requires { IsAxis points.now }
    ensures parts { Parts x points.now result }
    ensures within { result ≤ length points.now }
{
    points.partition_point(|point| *point < x)
}

fn has_at(points: &[u64], place: usize, x: u64) -> bool
    ensures { result ≡ has_at points.now place x }
{
    match points.get(place) {
        Some(point) => *point == x,
        None => false,
    }
}
