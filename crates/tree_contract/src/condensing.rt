//! All workers at once over the counters of a network.
ghost use Rattle.std.specs.Prelude.{◌≡◌, ℕ, ◌<◌, ◌≤◌, [], All, IfOk, length, map, slice_index_or};
ghost use Rattle.std.specs.Vec.{vec_capacity};
ghost use Rattle.child_counter.specs.Public.{IsNew};
ghost use Rattle.tree_contract.specs.Crews.{IsReady, HasWorked};

use crate::climbing::Site;
use crate::crew::all_at_once;
use crate::dealing::deepest_first;
use crate::worker::Worker;
use child_counter::{Closed, Counters, Pass};
use duct_ports::Gate;
use duct_units::{List, NoMemory};
use net_model::Network;
use std::alloc::Global;
use std::thread::Threads;
use steal_pool::{Hand, deal};

/// What came of each section, condensed by so many workers at once.
pub(crate) fn condense_all<'n, R: Threads + Sync, G: Gate>(
    rt: &R,
    alloc: Global,
    net: &'n Network,
    workers: u32,
    gate: &G,
) -> Result<Closed<'n>, NoMemory>
    requires { (0 < workers) × (workers ≤ 32) }
    ensures network { IfOk result (λ closed. closed.net ≡ net.now) }
    ensures workers { IfOk result (λ closed. length closed.finished ≡ workers) }
{
    let (counters, passes) = Counters::start(alloc, net, workers)?;
    let leaves = deepest_first(alloc, net)?;
    let hands = deal(alloc, leaves.as_slice(), workers)?;
    let mut crew = crew_of(alloc, hands, passes)?;
    let room = Vec::with_capacity(alloc, workers as usize)?;
    work_all(rt, alloc, net, &counters, gate, crew.as_mut_slice());
    let passes = passes_of(crew, room);
    let closed = counters.close(alloc, passes)?;
    Ok(closed)
}

/// A worker for each hand, with the pass of its number.
fn crew_of<'n>(
    alloc: Global,
    hands: List<Hand>,
    passes: List<Pass<'n>>,
) -> Result<Vec<Worker<'n>>, NoMemory>
    requires same { length hands ≡ length passes }
    requires few { length hands ≤ 32 }
    ensures hands { IfOk result (λ crew. map (λ w. w.hand) crew.items ≡ hands) }
    ensures passes { IfOk result (λ crew. map (λ w. w.pass) crew.items ≡ passes.entry) }
{
    let mut crew = Vec::new(alloc);
    let mut passes = passes.into_vec().into_iter();
    for hand in hands.into_vec() {
        let Some(pass) = passes.next() else {
            unreachable!()
        };
        let number = crew.len() as u32;
        crew.push(Worker { number, hand, pass })?;
    }
    Ok(crew)
}

/// Each worker works in a thread of its own.
fn work_all<'n, R: Threads + Sync, G: Gate>(
    rt: &R,
    alloc: Global,
    net: &'n Network,
    counters: &Counters<'n>,
    gate: &G,
    crew: &mut [Worker<'n>],
)
    requires some { 0 < length crew.old }
    requires network { counters.now.net ≡ net.now }
    requires ready { All (λ w. IsReady counters.now w.hand w.pass) crew.old }
    ensures worked { (i : ℕ) (d : _) → i < length crew.old → HasWorked counters.now
        (slice_index_or crew.old i d).hand (slice_index_or crew.new i d).hand (slice_index_or crew.new i d).pass }
    ensures count { length crew.new ≡ length crew.old }
{
    let threads = crew.len();
    let site = Site {
        alloc,
        net,
        counters,
        gate,
    };
    all_at_once(rt, &site, crew, threads);
}

/// The passes of the workers, for which there is room.
fn passes_of<'n>(crew: Vec<Worker<'n>>, room: Vec<Pass<'n>>) -> List<Pass<'n>>
    requires none_yet { room.items ≡ [] }
    requires room { length crew.items ≤ vec_capacity room }
    ensures { result ≡ map (λ w. w.pass) crew.entry.items }
{
    let mut passes = room;
    for worker in crew {
        let Worker {
            number: _,
            hand: _,
            pass,
        } = worker;
        passes.push_reserved(pass);
    }
    List::from_vec(passes)
}
