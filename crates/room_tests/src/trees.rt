//! Copies of trees.

use air_tree::AirTree;
use duct_units::Side::{Return, Supply};
use duct_units::{List, NoMemory, Side};
use std::alloc::Global;
use std::test::Fail;

/// A case a line: the children of each section, the leaves, and the sections of each side at the fan; a bar; the
/// sections. A section is its side, `s` or `r`, with the number of its neighbour, if it has one.
const CASES: &str = "
0: 1 2; 1:; 2: 3 4; 3:; 4:; 5:; 6:; leaves: 1 3 4 5 6; supply: 0; return: 5 6; | s s:0 s:0 s:2 s:2 r r
0:; leaves: 0; supply: 0; return:; | s
0:; 1:; leaves: 0 1; supply: 1; return: 0; | r s
";

#[test]
fn a_copy_has_the_lists_of_its_tree(rt: HostRuntime) -> Result<(), Fail> {
    for line in CASES.lines() {
        if let Some((wanted, text)) = line.split_once(" | ") {
            let found = copy_told(rt.alloc(), text)?;
            assert_eq!(rt; found.as_str().trim(), wanted, "of {line}");
        }
    }
    Ok(())
}

/// What the copy of a tree of these sections has.
fn copy_told(alloc: Global, text: &str) -> Result<String, Fail> {
    let tree = tree_of(alloc, text)?;
    let copy = copied(alloc, &tree)?;
    told(alloc, &copy)
}

// By itself: a tree that is made among the arguments of a call makes the proof long.
fn copied(alloc: Global, tree: &AirTree) -> Result<AirTree, NoMemory> {
    tree.copy(alloc)
}

/// The tree of the sections, as a case spells them.
pub fn tree_of(alloc: Global, text: &str) -> Result<AirTree, Fail> {
    let mut neighbours = Vec::new(alloc);
    let mut sides = Vec::new(alloc);
    for word in text.split_whitespace() {
        let (side, neighbour) = section_of(word)?;
        neighbours.push(neighbour)?;
        sides.push(side)?;
    }
    if neighbours.len() != sides.len() {
        return Err(Fail::from("a section without a side"));
    }
    Ok(AirTree::new(alloc, List::from_vec(neighbours), List::from_vec(sides))?)
}

/// The side, and the number of the neighbour.
fn section_of(word: &str) -> Result<(Side, Option<u32>), Fail> {
    let (side, neighbour) = match word.split_once(':') {
        Some((side, number)) => (side, Some(number.parse::<u32>()?)),
        None => (word, None),
    };
    match side {
        "r" => Ok((Return, neighbour)),
        _ => Ok((Supply, neighbour)),
    }
}

fn told(alloc: Global, tree: &AirTree) -> Result<String, Fail> {
    let mut text = String::new(alloc);
    for s in 0..tree.len() {
        write!(text, "{s}:")?;
        push_numbers(&mut text, tree.children(s))?;
    }
    text.push_str("leaves:")?;
    push_numbers(&mut text, tree.leaves())?;
    text.push_str("supply:")?;
    push_numbers(&mut text, tree.roots(Supply))?;
    text.push_str("return:")?;
    push_numbers(&mut text, tree.roots(Return))?;
    Ok(text)
}

fn push_numbers(text: &mut String, numbers: &[u32]) -> Result<(), Fail> {
    for number in numbers {
        write!(text, " {number}")?;
    }
    Ok(text.push_str("; ")?)
}
