//! A script read line by line.
ghost use Rattle.std.specs.Prelude.{◌≡◌, ◌↔◌, ◌<◌, ◌≤◌, ◌+◌, IfOk, IfErr, IsTrue, length};
ghost use Rattle.duct_units.specs.Rules.{line_fault};
ghost use Rattle.duct_units.specs.declared.fault.Reason.TheVariants.{Form, TooMany};
ghost use Rattle.duct_units.specs.declared.fault.ReadError.TheVariants.{Refused};
ghost use Rattle.edit_script.specs.Scripts.{IsScriptOf, IsRefusal, HasTooManyLines};

use crate::line::line_at;
use crate::script::ScriptLine;
use duct_units::{Fault, List, ReadError, Reason};
use std::alloc::Global;

/// The most lines of a script.
pub const MAX_LINES: usize = 1_000;

/// The lines of a script. Bytes behind the last line that a script may have are refused before any line is looked at;
/// else the first line that isn't of its form, also where its line feed is missing.
///
/// Takes steps in proportion to the number of bytes.
pub fn read_script(alloc: Global, bytes: &[u8]) -> Result<List<ScriptLine>, ReadError>
    ensures ok { IfOk result (λ lines. IsScriptOf lines bytes.now) }
    ensures refused { IfErr result (IsRefusal bytes.now) }
{
    if has_too_many_lines(bytes) {
        return Err(Fault::of_line(MAX_LINES as u32 + 1, Reason::TooMany).into());
    }
    let mut lines = Vec::new(alloc);
    let mut rest = bytes;
    while !rest.is_empty() {
        let Some((line, after)) = line_at(rest) else {
            return Err(bad_line(lines.len()));
        };
        lines.push(line)?;
        rest = after;
    }
    Ok(List::from_vec(lines))
}

/// Whether bytes stand behind the line feed of the last line that a script may have.
fn has_too_many_lines(bytes: &[u8]) -> bool
    ensures { IsTrue result ↔ HasTooManyLines bytes.now }
{
    match bytes.split_last() {
        Some((_, before)) => before.iter().filter(|byte| **byte == b'\n').count() >= MAX_LINES,
        None => false,
    }
}

/// The fault of a line behind so many good ones.
fn bad_line(good: usize) -> ReadError
    requires { good < MAX_LINES }
    ensures { result ≡ Refused (line_fault (good + 1) Form) }
{
    Fault::of_line(good as u32 + 1, Reason::Form).into()
}
