//! Calls on certificates.
ghost use Rattle.std.specs.Prelude.{◌≡◌, IfOk};
ghost use Rattle.duct_definitions.specs.Network.{AreFans};

use crate::fronts::front_of;
use duct_units::{List, NoMemory};
use front_certificate::{Certificate, Judgement, front_count, read_certificate, verify, write};
use net_model::laws::network_is_valid;
use net_model::{NetFan, Network};
use network_file::read_network;
use std::alloc::Global;
use std::test::Fail;

/// `m` at the fan and `a` beyond it, in two sizes each.
const DUO: &str = r#"
format = 1
name = "duo"
fan = [{ name = "f1", pressure = 60, cost = 0 }]
section = [
  { name = "m", side = "supply", sizes = ["k1", "k2"], pairs = [[1, 0, 20, 100], [2, 0, 10, 110]] },
  { name = "a", side = "supply", neighbour = "m", sizes = ["j1", "j2"], pairs = [[1, 1, 50, 10], [1, 2, 30, 20], [2, 1, 30, 40]] },
]
"#;

/// Seven sections of one size and price 1 on two sides.
const TREE: &str = r#"
format = 1
name = "tree"
fan = [{ name = "f1", pressure = 80, cost = 10 }]
section = [
  { name = "t", side = "supply", sizes = ["k"], pairs = [[1, 0, 20, 1]] },
  { name = "t1", side = "supply", neighbour = "t", sizes = ["k"], pairs = [[1, 1, 10, 1]] },
  { name = "t2", side = "supply", neighbour = "t", sizes = ["k"], pairs = [[1, 1, 15, 1]] },
  { name = "t3", side = "supply", neighbour = "t2", sizes = ["k"], pairs = [[1, 1, 40, 1]] },
  { name = "t4", side = "supply", neighbour = "t2", sizes = ["k"], pairs = [[1, 1, 5, 1]] },
  { name = "r1", side = "return", sizes = ["k"], pairs = [[1, 0, 30, 1]] },
  { name = "r2", side = "return", sizes = ["k"], pairs = [[1, 0, 10, 1]] },
]
"#;

/// A network whose fans are the return fans of the tree.
const RETURN_FANS: &str = r#"
format = 1
name = "fans"
fan = [{ name = "g1", pressure = 30, cost = 4 }, { name = "g2", pressure = 40, cost = 3 }]
section = [{ name = "t", side = "supply", sizes = ["k"], pairs = [] }]
"#;

/// A case a line: the judgement, a bar, the network, the total, and the fronts. A point is its need and its cost.
const CASES: &str = "
yes | duo 130 ; 40:130 ; 30:40 50:10 ; 30:20
yes | duo 129 ; 40:130 ; 30:40 50:10 ; 30:20
total | duo 131 ; 40:130 ; 30:40 50:10 ; 30:20
section 0 | duo 130 ; 40:131 ; 30:40 50:10 ; 30:20
section 1 | duo 130 ; 40:130 ; 30:40 ; 30:20
yes | duo 130 ; 39:130 ; 30:40 50:10 ; 30:20
section 0 | duo 130 ; none ; 30:40 50:10 ; 30:20
total | duo none ; 40:130 ; 30:40 50:10 ; 30:20

f1 gives the supply side 80 for 10 + 5, and g2 the return side 40 for 3 + 2; g1 costs 4. Without a root of the return
side it were 19.
yes | fans 20 ; 75:5 ; 10:1 ; 55:3 ; 40:1 ; 5:1 ; 30:1 ; 10:1
total | fans 21 ; 75:5 ; 10:1 ; 55:3 ; 40:1 ; 5:1 ; 30:1 ; 10:1
total | fans none ; 75:5 ; 10:1 ; 55:3 ; 40:1 ; 5:1 ; 30:1 ; 10:1

75 + 30 is above 80, so with f1 alone no design meets the rules.
yes | tree none ; 75:5 ; 10:1 ; 55:3 ; 40:1 ; 5:1 ; 30:1 ; 10:1
total | tree none ; 50:5 ; 10:1 ; 30:3 ; 40:1 ; 5:1 ; 30:1 ; 10:1
";

#[test]
fn a_certificate_is_judged_as_worked_by_hand(rt: HostRuntime) -> Result<(), Fail> {
    for line in CASES.lines() {
        if let Some((wanted, case)) = line.split_once(" | ") {
            let found = outcome(rt.alloc(), case)?;
            assert_eq!(rt; found.as_str(), wanted, "at {line}");
        }
    }
    Ok(())
}

/// The judgement of the case, whose certificate is written and read again.
fn outcome(alloc: Global, case: &str) -> Result<String, Fail> {
    let (head, fronts) = case.split_once(" ; ").ok_or("no fronts")?;
    let (network, total) = head.split_once(' ').ok_or("no total")?;
    let net = network_of(alloc, network)?;
    let c = certificate(alloc, total, fronts)?;
    judged(alloc, &net, &c)
}

fn judged(alloc: Global, net: &Network, c: &Certificate) -> Result<String, Fail> {
    if c.fronts().len() != front_count(net) {
        return Err(Fail::from("another number of fronts"));
    }
    let text = write(alloc, net, c)?;
    let again = read_certificate(alloc, net, text.as_slice())?;
    match verify(net, &again) {
        Judgement::Yes => Ok(String::from_str(alloc, "yes")?),
        Judgement::Section(s) => Ok(format!(in alloc; "section {s}")?),
        Judgement::Total => Ok(String::from_str(alloc, "total")?),
    }
}

fn network_of(alloc: Global, name: &str) -> Result<Network, Fail> {
    match name {
        "duo" => Ok(read_network(alloc, DUO.as_bytes())?),
        "tree" => Ok(read_network(alloc, TREE.as_bytes())?),
        _ => with_return_fans(alloc),
    }
}

/// The tree with return fans on offer.
fn with_return_fans(alloc: Global) -> Result<Network, Fail> {
    let other = read_network(alloc, RETURN_FANS.as_bytes())?;
    let fans = fans_of(alloc, &other)?;
    let net = read_network(alloc, TREE.as_bytes())?;
    Ok(net.with_return_fans(fans))
}

/// The fans of the network.
fn fans_of(alloc: Global, net: &Network) -> Result<List<NetFan>, NoMemory>
    ensures value { IfOk result (λ fans. fans ≡ net.now.fans) }
    ensures fans { IfOk result AreFans }
{
    network_is_valid(net);
    let mut fans = Vec::new(alloc);
    for i in 0..net.fan_count() {
        fans.push(net.fan(i))?;
    }
    Ok(List::from_vec(fans))
}

fn certificate(alloc: Global, total: &str, fronts: &str) -> Result<Certificate, Fail> {
    let total = match total {
        "none" => None,
        total => Some(total.parse::<u64>()?),
    };
    let mut c = Certificate::start(alloc, total);
    for front in fronts.split(" ; ") {
        c.push(front_of(alloc, front)?)?;
    }
    Ok(c)
}
