//! Hands taken apart, so that each pass goes back to the deque that it is of.
ghost use Rattle.std.specs.Prelude.{◌≡◌, ℕ, ◌<◌, ◌^◌, ◌∷◌, length, map, IfOk, vec_len, List};
ghost use mathlib.Core.Option.{some};
ghost use lib.ListN.{get_elem?};
ghost use Rattle.std.specs.List.{sum_by};
ghost use Rattle.steal_pool.specs.Ends.{own_id, reach_id};
ghost use Rattle.steal_pool.specs.Deals.{skip};
ghost use Rattle.steal_pool.specs.Gathers.{Absorbed, IsParted, IsSeat, reach_got, row_ids, row_got, row_parts};

use crate::deque::{OwnDeque, Reach};
use crate::hand::Hand;
use duct_units::NoMemory;
use std::alloc::Global;

/// The reaches of one hand.
#[derive(Drop)]
pub struct Row {
    pub(crate) reaches: Vec<Reach>,
}

/// The deques and the reaches of hands, in their order, and what they took, one hand after another.
#[derive(Drop)]
pub struct Parted {
    pub(crate) owns: Vec<OwnDeque>,
    pub(crate) rows: Vec<Row>,
    pub(crate) taken: Vec<u32>,
}

/// Takes hands apart.
pub(crate) fn part_all(alloc: Global, hands: Vec<Hand>) -> Result<Parted, NoMemory>
    ensures { IfOk result (λ p. IsParted hands.items p.owns.items p.rows.items p.taken.items) }
{
    let mut hands = hands;
    let mut owns = Vec::with_capacity(alloc, hands.len())?;
    let mut rows = Vec::with_capacity(alloc, hands.len())?;
    let mut taken = Vec::new(alloc);
    while !hands.is_empty() {
        let (own, reaches, mine) = take_first(&mut hands).apart();
        owns.push(own)?;
        rows.push(Row { reaches })?;
        taken.extend_from_slice(mine.as_slice())?;
    }
    Ok(Parted { owns, rows, taken })
}

/// The deques take in all passes.
pub(crate) fn absorb_all(owns: &mut Vec<OwnDeque>, rows: Vec<Row>)
    requires { (j : ℕ) (ids : List _) → get_elem? (map row_ids rows.items) j ≡ some ids
        → ids ≡ skip j (map own_id owns.old.items) }
    ensures { Absorbed owns.old.items owns.new.items
        (sum_by row_parts rows.items) (λ t. sum_by (row_got t) rows.items) }
{
    let mut rows = rows;
    let mut j = 0;
    while !rows.is_empty() {
        let row = take_first(&mut rows);
        absorb_row(owns, row.reaches, j);
        j += 1;
    }
}

/// The deques take in the passes of hand `j`.
fn absorb_row(owns: &mut Vec<OwnDeque>, row: Vec<Reach>, j: usize)
    requires { map reach_id row.items ≡ skip j (map own_id owns.old.items) }
    ensures { Absorbed owns.old.items owns.new.items
        (length row.items) (λ t. sum_by (reach_got t) row.items) }
{
    let mut row = row;
    while let Some(reach) = row.pop() {
        let i = seat(row.len(), j);
        owns[i].absorb(reach);
    }
}

/// Whose deque the reach at place `k` of hand `j` is for.
fn seat(k: usize, j: usize) -> usize
    requires { k < 2 ^ 63 }
    ensures { IsSeat k j result }
{
    if k < j { k } else { k + 1 }
}

/// The first item, which is taken out.
pub(crate) fn take_first<T>(list: &mut Vec<T>) -> T
    requires { 0 < vec_len list.old }
    ensures { list.old.items ≡ result ∷ list.new.items }
{
    list.remove(0)
}
