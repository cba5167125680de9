//! `duct_cli` picks catalogue sizes and a fan for an air system, or a fan for each side, so that no choice that meets
//! the rules costs less. It also migrates project files to format 2, and makes friction files.
//!
//! The program has no logic of its own: it hands its arguments, the disk, the standard output, four rules and an open
//! gate to `run`.
#![tactic(auto)]

mod answers;
mod certifying;
mod checking;
mod crew;
mod designing;
mod editing;
#[cfg(test)]
mod gate_tests;
mod laws;
mod program;
mod reply;
#[cfg(test)]
mod rule_tests;
mod run;
mod status;
mod taking;
mod taking_off;
#[cfg(test)]
mod tests;

use design_rules::{HeightRule, PresetRule, SizeRule, TaperRule, VelocityRule};
use duct_ports::{DiskFiles, OpenGate, StdSink};
use duct_units::NoMemory;
use std::process::ExitCode;
use std::rt::{Env, Files};
use std::thread::Threads;

fn main(rt: HostRuntime) -> ExitCode {
    match status_with_rules(&rt) {
        Ok(status) => ExitCode::from(status),
        Err(NoMemory) => ExitCode::from(status::OUT_OF_MEMORY),
    }
}

/// Runs with the four rules of docs/RULES.md, "Rules of sizes".
fn status_with_rules<T: Threads + Sync + Files + Print + Env + AllocGlobal>(
    rt: &T,
) -> Result<u8, NoMemory> {
    let alloc = rt.alloc();
    let mut rules: Vec<Box<dyn SizeRule>> = Vec::new(alloc);
    program::add_rule(&mut rules, Box::new(alloc, PresetRule::new())?)?;
    program::add_rule(&mut rules, Box::new(alloc, VelocityRule::new())?)?;
    program::add_rule(&mut rules, Box::new(alloc, HeightRule::new())?)?;
    program::add_rule(&mut rules, Box::new(alloc, TaperRule::new())?)?;
    let arguments = program::arguments(rt);
    let mut files = DiskFiles::new(rt);
    let mut out = StdSink::new(rt);
    Ok(program::status_of(
        rt, alloc, &arguments, &mut files, &mut out, rules, &OpenGate,
    ))
}
