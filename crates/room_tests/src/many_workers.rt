//! A tree of 500 sections, condensed by workers that share it.
ghost use Rattle.std.specs.Prelude.{◌≡◌, ◌<◌, ◌≤◌, length};

use contract_join::SectionFronts;
use duct_ports::OpenGate;
use net_model::Network;
use network_file::read_network;
use std::alloc::Global;
use std::test::Fail;
use std::thread::Threads;
use tree_contract::{Fronted, contract_all};

/// How often the tree is condensed by each number of workers.
const RUNS: u32 = 2;

#[test]
fn workers_condense_500_sections(rt: HostRuntime) -> Result<(), Fail> {
    let file = file_of(rt.alloc(), 500)?;
    let net = read_network(rt.alloc(), file.as_bytes())?;
    let alone = condensed(&rt, rt.alloc(), &net, 1)?;
    let trunk = alone.as_str().lines().next().unwrap_or("");
    assert!(rt; trunk.starts_with("500 finished; 9 "), "{trunk}");
    assert!(rt; trunk.ends_with(" 18 500"), "{trunk}");
    for workers in [1, 2, 7, 32] {
        for run in 0..RUNS {
            let found = condensed(&rt, rt.alloc(), &net, workers)?;
            assert_eq!(rt;
                found.as_str(),
                alone.as_str(),
                "by {workers} workers in run {run}"
            );
        }
    }
    Ok(())
}

/// How many sections stand in the lists of so many workers, and a line for each section, with the points of its fronts.
fn condensed<R: Threads + Sync>(
    rt: &R,
    alloc: Global,
    net: &Network,
    workers: u32,
) -> Result<String, Fail>
    requires { (0 < workers) × (workers ≤ 32) }
{
    let fronted = contract_all(rt, alloc, net, workers, &OpenGate)?;
    told(alloc, &fronted, workers)
}

fn told(alloc: Global, fronted: &Fronted, workers: u32) -> Result<String, Fail>
    requires { length fronted.now.closed.finished ≡ workers }
{
    let mut finished: usize = 0;
    for worker in 0..workers {
        finished = finished.saturating_add(fronted.finished(worker).len());
    }
    let mut text = format!(in alloc; "{finished} finished;")?;
    for section in fronted.all() {
        push_fronts(&mut text, section)?;
    }
    Ok(text)
}

fn push_fronts(text: &mut String, section: &SectionFronts) -> Result<(), Fail> {
    for g in 0..section.network().columns(section.section()) {
        for point in section.front(g).points() {
            write!(text, " {} {}", point.need, point.cost)?;
        }
    }
    Ok(text.push_str("\n")?)
}

/// The network file of a tree in which two sections stand beyond each as long as there are any, so that at most nine
/// stand between a leaf and the fan. Each section loses 2 dPa for 1 cent, or 1 dPa for 2.
fn file_of(alloc: Global, count: u32) -> Result<String, Fail> {
    let mut file = String::new(alloc);
    file.push_str(
        "format = 1\nname = 'tree'\nfan = [{ name = 'f1', pressure = 500, cost = 0 }]\n",
    )?;
    file.push_str("[[section]]\nname = 's0'\nside = 'supply'\nsizes = ['k1', 'k2']\n")?;
    file.push_str("pairs = [[1, 0, 2, 1], [2, 0, 1, 2]]\n")?;
    for s in 1..count {
        push_section(&mut file, s, (s - 1) / 2)?;
    }
    Ok(file)
}

fn push_section(file: &mut String, s: u32, neighbour: u32) -> Result<(), Fail> {
    write!(
        file,
        "[[section]]\nname = 's{s}'\nside = 'supply'\nneighbour = 's{neighbour}'\n"
    )?;
    file.push_str("sizes = ['k1', 'k2']\n")?;
    file.push_str("pairs = [[1, 1, 2, 1], [1, 2, 2, 1], [2, 1, 1, 2], [2, 2, 1, 2]]\n")?;
    Ok(())
}
