//! Prints the fronts of a network file, for whoever wants to compare them with the least prices that the definitions
//! give: `front_listing NETWORK`.
//!
//! Needs are in dPa, costs in cents. Sections and sizes count from 1, as in the file, and size 0 stands at the fan.
//! A line `front SECTION SIZE` has the points of a section beside a size of its neighbour, need and cost by turns; the
//! lines `supply` and `return` have those of the sides.
#![tactic(auto)]

mod listing;

use duct_ports::{DiskFiles, StdSink, read_all, write_all};
use listing::listing_of;
use network_file::read_network;
use std::env;
use std::process::ExitCode;
use std::thread::Threads;

fn main(rt: HostRuntime) -> ExitCode {
    ExitCode::from(status(&rt))
}

/// 0 where the fronts of the file that the first word names were printed, else 1.
fn status<R: std::rt::Files + Print + std::rt::Env + AllocGlobal + Threads + Sync>(rt: &R) -> u8 {
    let Ok(args) = env::args(rt) else {
        return 1;
    };
    match args.skip(1).next() {
        Some(word) => printed(rt, word.as_str()),
        None => 1,
    }
}

/// 0 where the fronts of the named file were printed, else 1.
fn printed<R: std::rt::Files + Print + AllocGlobal + Threads + Sync>(rt: &R, name: &str) -> u8 {
    let mut files = DiskFiles::new(rt);
    let Ok(bytes) = read_all(rt.alloc(), &mut files, name) else {
        return 1;
    };
    let Ok(net) = read_network(rt.alloc(), bytes.as_slice()) else {
        return 1;
    };
    let Ok(text) = listing_of(rt, rt.alloc(), &net) else {
        return 1;
    };
    match write_all(&mut StdSink::new(rt), text.as_slice()) {
        Ok(()) => 0,
        Err(_) => 1,
    }
}
