//! Points and fronts at the beginning of some bytes.
ghost use Rattle.std.specs.Prelude.{◌≡◌, ◌↔◌, ◌++◌, ◌∷◌, [], ◌<◌, length, IfOk, IfSome, IsTrue, option_map};
ghost use Rattle.pareto_front.specs.Front.{IsFront};
ghost use Rattle.front_certificate.specs.Reading.{IsOnly, IsPointAt, IsFrontAt};

use crate::words::{behind, number_at};
use duct_definitions::MAX_PRESSURE;
use duct_units::{List, NoMemory};
use pareto_front::{COST_LIMIT, Front, Point};
use std::alloc::Global;

/// The front on the line at the beginning, and the bytes behind the line.
pub(crate) fn front_at(alloc: Global, bytes: &[u8]) -> Result<Option<(Front, &[u8])>, NoMemory>
    ensures { IfOk result (λ read. IsOnly (IsFrontAt bytes.now)
        (option_map (λ found. (found.0, found.1.now)) read)) }
{
    let Some(mut rest) = behind(bytes, b"front") else {
        return Ok(None);
    };
    let mut points = Vec::new(alloc);
    while let Some((point, after)) = point_at(rest) {
        if !goes_on(&points, &point) {
            return Ok(None);
        }
        points.push(point)?;
        rest = after;
    }
    match behind(rest, b"\n") {
        Some(rest) => Ok(Some((Front::from_points(List::from_vec(points)), rest))),
        None => Ok(None),
    }
}

/// Whether the point needs more and costs less than the last of the points, if there is one.
fn goes_on(points: &[Point], point: &Point) -> bool
    requires { IsFront points.now }
    ensures { IsTrue result ↔ IsFront (points.now ++ point.now ∷ []) }
{
    match points.last() {
        Some(last) => last.need < point.need && point.cost < last.cost,
        None => true,
    }
}

/// The point at the beginning, and the bytes behind its cost.
fn point_at(bytes: &[u8]) -> Option<(Point, &[u8])>
    ensures only { IsOnly (IsPointAt bytes.now) (option_map (λ found. (found.0, found.1.now)) result) }
    ensures shorter { IfSome result (λ found. length found.1.now < length bytes.now) }
{
    let rest = behind(bytes, b" ")?;
    let (need, rest) = number_at(rest, MAX_PRESSURE)?;
    let rest = behind(rest, b" ")?;
    let (cost, rest) = number_at(rest, COST_LIMIT - 1)?;
    Some((Point { need, cost }, rest))
}
