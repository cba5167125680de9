//! A certificate read line by line.
ghost use Rattle.std.specs.Prelude.{◌≡◌, ◌≤◌, suc, IfOk, IfErr, option_map};
ghost use Rattle.duct_units.specs.Rules.{line_fault};
ghost use Rattle.duct_units.specs.declared.fault.Reason.TheVariants.{Form};
ghost use Rattle.duct_units.specs.declared.fault.ReadError.TheVariants.{Refused};
ghost use Rattle.front_certificate.specs.Reading.{IsOnly, IsTotalAt, IsTextOf, IsRefusal};

use crate::certificate::Certificate;
use crate::counting::front_count;
use crate::points::front_at;
use crate::words::{behind, number_at};
use duct_units::{Fault, ReadError, Reason};
use net_model::Network;
use pareto_front::COST_LIMIT;
use std::alloc::Global;
use text_lines::one_line;

/// The certificate of the network whose text these bytes are, or the fault of the first bad line: the bytes begin with
/// the lines before it of some certificate, and with no further line of one.
pub fn read_certificate(
    alloc: Global,
    net: &Network,
    bytes: &[u8],
) -> Result<Certificate, ReadError>
    ensures ok { IfOk result (IsTextOf net.now bytes.now) }
    ensures err { IfErr result (IsRefusal net.now bytes.now) }
{
    let form = one_line(alloc, b"certificate", &[b"1"])?;
    let Some(rest) = behind(bytes, form.as_slice()) else {
        return Err(bad_line(0));
    };
    let name = net.name();
    let project = one_line(alloc, b"project", &[name.bytes()])?;
    let Some(rest) = behind(rest, project.as_slice()) else {
        return Err(bad_line(1));
    };
    let Some((total, mut rest)) = total_at(rest) else {
        return Err(bad_line(2));
    };
    let mut c = Certificate::start(alloc, total);
    let count = front_count(net);
    for i in 0..count {
        let Some((front, after)) = front_at(alloc, rest)? else {
            return Err(bad_line(i + 3));
        };
        c.push(front)?;
        rest = after;
    }
    let end = one_line(alloc, b"end", &[])?;
    let Some(rest) = behind(rest, end.as_slice()) else {
        return Err(bad_line(count + 3));
    };
    if rest.is_empty() {
        Ok(c)
    } else {
        Err(bad_line(count + 4))
    }
}

/// The total on the line at the beginning, and the bytes behind the line.
fn total_at(bytes: &[u8]) -> Option<(Option<u64>, &[u8])>
    ensures { IsOnly (IsTotalAt bytes.now) (option_map (λ found. (found.0, found.1.now)) result) }
{
    let rest = behind(bytes, b"cost ")?;
    if let Some(rest) = behind(rest, b"none\n") {
        return Some((None, rest));
    }
    let (total, rest) = number_at(rest, COST_LIMIT - 1)?;
    let rest = behind(rest, b"\n")?;
    Some((Some(total), rest))
}

/// The fault of a line behind so many good ones.
fn bad_line(good: usize) -> ReadError
    requires { good ≤ 20_000 }
    ensures { result ≡ Refused (line_fault (suc good) Form) }
{
    Fault::of_line(good as u32 + 1, Reason::Form).into()
}
