//! Prints what the calls of the catalogues answer, for whoever wants to compare them with exact fractions:
//! `loss_listing SIZES FRICTION FITTINGS FANS QUESTIONS`.
//!
//! A file of questions is a CSV file with the header `question` and a question a row (README.md). Each has a line in
//! the answer: `is N` or `below N`, which is -N, for a number, `none` where there is none, `yes` or `no`. Airflow is in
//! l/s, length in mm, losses in dPa, coefficients in thousandths, money in cents.
#![tactic(auto)]

mod answer;
mod catalogues;
mod listing;
mod named;
mod section;

use catalogues::{Catalogues, read_catalogues};
use duct_ports::{DiskFiles, StdSink, read_all, write_all};
use duct_units::List;
use listing::listing_of;
use std::env;
use std::process::ExitCode;

fn main(rt: HostRuntime) -> ExitCode {
    ExitCode::from(status(&rt))
}

/// 0 where the answers to the questions of the last named file were printed, else 1.
fn status<R: std::rt::Files + Print + std::rt::Env + AllocGlobal>(rt: &R) -> u8 {
    let Ok(args) = env::args(rt) else {
        return 1;
    };
    let Ok(words) = args.skip(1).collect::<Vec<String>>(rt.alloc()) else {
        return 1;
    };
    match words.as_slice() {
        [sizes, friction, fittings, fans, questions] => {
            let names = [
                sizes.as_str(),
                friction.as_str(),
                fittings.as_str(),
                fans.as_str(),
            ];
            printed(rt, names, questions.as_str())
        }
        _ => 1,
    }
}

/// 0 where the answers to the questions of the named file were printed, else 1.
fn printed<R: std::rt::Files + Print + AllocGlobal>(
    rt: &R,
    names: [&str; 4],
    questions: &str,
) -> u8 {
    let Some(text) = text_for(rt, names, questions) else {
        return 1;
    };
    match write_all(&mut StdSink::new(rt), text.as_slice()) {
        Ok(()) => 0,
        Err(_) => 1,
    }
}

/// The answers to the questions of the named file; None where a file is not read or refused, or memory runs out.
fn text_for<R: std::rt::Files + AllocGlobal>(
    rt: &R,
    names: [&str; 4],
    questions: &str,
) -> Option<List<u8>> {
    let catalogues = catalogues_at(rt, names)?;
    let questions = bytes_at(rt, questions)?;
    listing_of(rt.alloc(), &catalogues, questions.as_slice()).ok()
}

/// The catalogues of the named files, in the order of the words.
fn catalogues_at<R: std::rt::Files + AllocGlobal>(rt: &R, names: [&str; 4]) -> Option<Catalogues> {
    let sizes = bytes_at(rt, names[0])?;
    let friction = bytes_at(rt, names[1])?;
    let fittings = bytes_at(rt, names[2])?;
    let fans = bytes_at(rt, names[3])?;
    read_catalogues(
        rt.alloc(),
        sizes.as_slice(),
        friction.as_slice(),
        fittings.as_slice(),
        fans.as_slice(),
    )
    .ok()
}

/// The bytes of a file; None where it is not read.
fn bytes_at<R: std::rt::Files + AllocGlobal>(rt: &R, name: &str) -> Option<List<u8>> {
    let mut files = DiskFiles::new(rt);
    read_all(rt.alloc(), &mut files, name).ok()
}
