//! The text of a certificate.
ghost use Rattle.std.specs.Prelude.{◌≡◌, ◌++◌, codes, IfOk, OnOk, length};
ghost use Rattle.std.specs.List.{flat_map};
ghost use Rattle.front_certificate.specs.CertificateText.{certificate_text, heading, total_line, front_line, numbers_of};
ghost use Rattle.front_certificate.specs.Certificates.{front_count};

use crate::certificate::Certificate;
use duct_units::{List, Name, NoMemory};
use net_model::Network;
use pareto_front::{Front, Point};
use std::alloc::Global;
use text_lines::Text;

/// The text of a certificate of the network.
pub fn write(alloc: Global, net: &Network, c: &Certificate) -> Result<List<u8>, NoMemory>
    requires { length c.now.fronts ≡ front_count net.now }
    ensures { IfOk result (λ text. text ≡ certificate_text net.now c.now) }
{
    let mut text = Text::new(alloc);
    add_heading(&mut text, &net.name())?;
    add_total(alloc, &mut text, c.total())?;
    add_fronts(alloc, &mut text, c.fronts())?;
    text.line(b"end", &[])?;
    Ok(text.into_list())
}

/// The form and the project.
fn add_heading(text: &mut Text, project: &Name) -> Result<(), NoMemory>
    ensures { OnOk result (text.new ≡ text.old ++ heading project.now) }
{
    text.line(b"certificate", &[b"1"])?;
    text.line(b"project", &[project.bytes()])
}

/// The total, or that there is none.
fn add_total(alloc: Global, text: &mut Text, total: Option<u64>) -> Result<(), NoMemory>
    ensures { OnOk result (text.new ≡ text.old ++ total_line total) }
{
    match total {
        None => text.line(b"cost", &[b"none"]),
        Some(total) => text.numbers(alloc, b"cost", &[total]),
    }
}

fn add_fronts(alloc: Global, text: &mut Text, fronts: &[Front]) -> Result<(), NoMemory>
    ensures { OnOk result (text.new ≡ text.old ++ flat_map front_line fronts.now) }
{
    for front in fronts {
        add_front(alloc, text, front.points())?;
    }
    Ok(())
}

fn add_front(alloc: Global, text: &mut Text, points: &[Point]) -> Result<(), NoMemory>
    ensures { OnOk result (text.new ≡ text.old ++ front_line points.now) }
{
    let numbers = numbers_of(alloc, points)?;
    text.numbers(alloc, b"front", &numbers)
}

/// The needs and costs of the points, in turn.
fn numbers_of(alloc: Global, points: &[Point]) -> Result<Vec<u64>, NoMemory>
    ensures { IfOk result (λ numbers. numbers.items ≡ numbers_of points.now) }
{
    let mut numbers = Vec::new(alloc);
    for point in points {
        numbers.push(point.need)?;
        numbers.push(point.cost)?;
    }
    Ok(numbers)
}
