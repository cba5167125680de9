//! The rules that make a tree of neighbours and sides, tested in order.
ghost use Rattle.std.specs.Prelude.{◌≡◌, ◌<◌, ◌≤◌, length};
ghost use Rattle.std.specs.List.{list_any, flat_map, range_with_len};
ghost use Rattle.duct_units.specs.Rules.{first_broken};
ghost use Rattle.duct_definitions.specs.Tree.{Tree, tree_rules, section_rules};
ghost use Rattle.duct_units.specs.Side.{same_side};

use duct_definitions::MAX_SECTIONS;
use duct_units::{Fault, Reason, Side};

/// The first rule of a tree that is broken.
#[tactic(auto, using(duct_units::proofs::RuleLaws::append_rule))]
pub fn broken_rule(neighbours: &[Option<u32>], sides: &[Side]) -> Option<Fault>
    requires { length sides.now ≡ length neighbours.now }
    ensures { result ≡ first_broken (tree_rules (record { neighbours = neighbours.now; sides = sides.now })) }
{
    if neighbours.is_empty() {
        return Some(Fault::of_file(Reason::Empty));
    }
    if neighbours.len() > MAX_SECTIONS {
        return Some(Fault::of_file(Reason::TooMany));
    }
    if let Some(fault) = broken_section(neighbours, sides) {
        return Some(fault);
    }
    if !has_supply(sides) {
        return Some(Fault::of_file(Reason::NoSupply));
    }
    None
}

/// The first section that breaks a rule.
fn broken_section(neighbours: &[Option<u32>], sides: &[Side]) -> Option<Fault>
    requires same { length sides.now ≡ length neighbours.now }
    requires few { length neighbours.now ≤ MAX_SECTIONS }
    ensures { let tree : Tree = record { neighbours = neighbours.now; sides = sides.now } in
        result ≡ first_broken (flat_map (section_rules tree) (range_with_len 0 (length neighbours.now))) }
{
    for s in 0..neighbours.len() {
        if let Some(fault) = broken_at(neighbours, sides, s) {
            return Some(fault);
        }
    }
    None
}

fn broken_at(neighbours: &[Option<u32>], sides: &[Side], s: usize) -> Option<Fault>
    requires same { length sides.now ≡ length neighbours.now }
    requires few { length neighbours.now ≤ MAX_SECTIONS }
    requires section { s < length neighbours.now }
    ensures { result ≡ first_broken (section_rules (record { neighbours = neighbours.now; sides = sides.now }) s) }
{
    let n = match neighbours[s] {
        None => return None,
        Some(n) => n as usize,
    };
    if s <= n {
        Some(Fault::of_section(s as u32 + 1, Reason::NotBefore))
    } else if !is_same(sides[n], sides[s]) {
        Some(Fault::of_section(s as u32 + 1, Reason::OtherSide))
    } else {
        None
    }
}

fn has_supply(sides: &[Side]) -> bool
    ensures { result ≡ list_any (λ x. same_side x Side.Supply) sides.now }
{
    sides.iter().any(|side| is_same(*side, Side::Supply))
}

pub fn is_same(a: Side, b: Side) -> bool
    ensures { result ≡ same_side a b }
{
    a == b
}
