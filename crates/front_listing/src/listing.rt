//! The fronts of a network, line by line.

use contract_join::SectionFronts;
use duct_ports::OpenGate;
use duct_units::{List, NoMemory, Side};
use net_model::Network;
use pareto_front::Point;
use std::alloc::Global;
use std::thread::Threads;
use text_lines::Text;
use tree_contract::contract_all;

/// A line for each section beside each size of its neighbour, and one for each side.
pub fn listing_of<R: Threads + Sync>(
    rt: &R,
    alloc: Global,
    net: &Network,
) -> Result<List<u8>, NoMemory> {
    let mut text = Text::new(alloc);
    let fronted = contract_all(rt, alloc, net, 1, &OpenGate)?;
    for section in fronted.all() {
        add_section(alloc, &mut text, section)?;
    }
    let supply = fronted.side(Side::Supply);
    add_line(alloc, &mut text, b"supply", &[], supply.points())?;
    let back = fronted.side(Side::Return);
    add_line(alloc, &mut text, b"return", &[], back.points())?;
    Ok(text.into_list())
}

fn add_section(alloc: Global, text: &mut Text, section: &SectionFronts) -> Result<(), NoMemory> {
    let number = section.section();
    let net = section.network();
    let first = if net.tree().neighbour(number).is_none() {
        0
    } else {
        1
    };
    for g in 0..net.columns(number) {
        let place = [u64::from(number) + 1, u64::from(g) + first];
        add_line(alloc, text, b"front", &place, section.front(g).points())?;
    }
    Ok(())
}

/// Adds the word, the numbers of the place, and the needs and costs of the points by turns.
fn add_line(
    alloc: Global,
    text: &mut Text,
    word: &[u8],
    place: &[u64],
    points: &[Point],
) -> Result<(), NoMemory> {
    let mut numbers = place.to_vec(alloc)?;
    for point in points {
        numbers.push(point.need)?;
        numbers.push(point.cost)?;
    }
    text.numbers(alloc, word, numbers.as_slice())
}
