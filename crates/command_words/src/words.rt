//! What the words of the command line ask for, read by their places and by their options.
ghost use Rattle.std.specs.Prelude.{◌≡◌, ◌≤◌, ◌<◌, ◌^◌, map, option_map, string_bytes, IfSome};
ghost use Rattle.command_words.specs.ArgumentsSeen.{arguments_seen};
ghost use Rattle.command_words.specs.Commands.{IsInBounds, IsAirInBounds, IsSectionCount};
ghost use Rattle.command_words.specs.Words.{asked_of, check_words, command_from, design_words, edit_words, one_file, project_words, number_at, whole_number, friction_words, last_file, section_count_word, takeoff_words, verify_words, workers_in};
ghost use Rattle.command_words.specs.WordsSeen.{asked_seen, command_seen, design_seen, friction_seen, takeoff_seen, verify_seen};

use crate::arguments::{Arguments, plain_file};
use crate::commands::{Command, DesignWords, FrictionWords, TakeoffWords, VerifyWords};
use crate::workers::{DEFAULT_WORKERS, MAX_WORKERS};
use duct_definitions::{MAX_DENSITY, MAX_SECTIONS, MIN_DENSITY};
use duct_ports::Names;
use duct_units::whole;
use friction_maker::{MAX_VISCOSITY, MIN_VISCOSITY};

/// What accepted words ask for.
#[derive(Clone, Copy)]
pub struct Asked<'w> {
    pub command: Command<'w>,
    /// How many workers condense.
    pub workers: u32,
}

impl<'w> Asked<'w> {
    /// What the words ask for; None where they are refused. Takes no memory.
    pub fn of_words(words: &'w [String]) -> Option<Asked<'w>>
        ensures value { option_map asked_seen result ≡ asked_of (map string_bytes words.now) }
        ensures bounds { IfSome result (λ asked. IsInBounds (command_seen asked.command)) }
        ensures workers { IfSome result (λ asked. (0 < asked.workers) × (asked.workers ≤ MAX_WORKERS)) }
    {
        let [name, rest @ ..] = words else {
            return None;
        };
        let arguments = Arguments::of_words(rest)?;
        let workers = workers_in(&arguments)?;
        let command = command_from(name.as_str(), &arguments)?;
        Some(Asked { command, workers })
    }
}

/// The command of this name.
fn command_from<'w>(name: &str, arguments: &Arguments<'w>) -> Option<Command<'w>>
    ensures value { option_map command_seen result ≡ command_from name.now (arguments_seen arguments.now) }
    ensures bounds { IfSome result (λ command. IsInBounds (command_seen command)) }
{
    match name {
        "pick" => Some(Command::Pick(one_file(arguments.files_and_workers()?)?)),
        "migrate" => Some(Command::Migrate(one_file(arguments.files_alone()?)?)),
        "friction" => Some(Command::Friction(friction_words(arguments.files_alone()?)?)),
        "design" => Some(Command::Design(design_words(arguments)?)),
        "check" => check_words(arguments.without_workers()?),
        "make" => Some(Command::Make(section_count_word(arguments.files_and_workers()?)?)),
        "certify" => Some(Command::Certify(one_file(arguments.files_and_workers()?)?)),
        "verify" => Some(Command::Verify(verify_words(arguments.files_alone()?)?)),
        "takeoff" => Some(Command::Takeoff(takeoff_words(arguments.files_alone()?)?)),
        "edit" => edit_words(arguments.without_return_fans()?),
        _ => None,
    }
}

/// How many workers condense.
fn workers_in(arguments: &Arguments<'_>) -> Option<u32>
    ensures value { result ≡ workers_in (arguments_seen arguments.now) }
    ensures within { IfSome result (λ workers. (0 < workers) × (workers ≤ MAX_WORKERS)) }
{
    match arguments.workers() {
        Some(value) => Some(whole_number(value.as_bytes(), 1, u64::from(MAX_WORKERS))? as u32),
        None => Some(DEFAULT_WORKERS),
    }
}

/// The one file of a command.
fn one_file<'w>(files: &Names<'w>) -> Option<&'w str>
    ensures { option_map (λ word. word.now) result ≡ one_file files.now }
{
    if files.len() != 1 {
        return None;
    }
    plain_file(files, 0)
}

/// The words of `friction` by their places.
fn friction_words<'w>(words: &Names<'w>) -> Option<FrictionWords<'w>>
    ensures value { option_map friction_seen result ≡ friction_words words.now }
    ensures air { IfSome result (λ words. IsAirInBounds words.density words.viscosity) }
{
    if words.len() != 4 {
        return None;
    }
    Some(FrictionWords {
        sizes: plain_file(words, 0)?,
        ducts: plain_file(words, 1)?,
        density: number_at(words, 2, MIN_DENSITY, MAX_DENSITY)?,
        viscosity: number_at(words, 3, MIN_VISCOSITY, MAX_VISCOSITY)?,
    })
}

/// The number at a place.
fn number_at(words: &Names<'_>, i: usize, low: u64, high: u64) -> Option<u64>
    requires order { low ≤ high }
    requires fits { high < 2 ^ 63 }
    ensures value { result ≡ number_at words.now i low high }
    ensures within { IfSome result (λ n. (low ≤ n) × (n ≤ high)) }
{
    let word = words.get(i)?;
    whole_number(word.as_bytes(), low, high)
}

/// The number that the word spells, where it lies from low to high.
fn whole_number(word: &[u8], low: u64, high: u64) -> Option<u64>
    requires order { low ≤ high }
    requires fits { high < 2 ^ 63 }
    ensures value { result ≡ whole_number word.now low high }
    ensures within { IfSome result (λ n. (low ≤ n) × (n ≤ high)) }
{
    Some(whole(word, low as i64, high as i64)?.unsigned_abs())
}

/// How many sections are made: the one word of `make`.
fn section_count_word(words: &Names<'_>) -> Option<u32>
    ensures value { result ≡ section_count_word words.now }
    ensures within { IfSome result IsSectionCount }
{
    if words.len() != 1 {
        return None;
    }
    Some(number_at(words, 0, 1, MAX_SECTIONS as u64)? as u32)
}

/// A project and its catalogues by their places, the return fans by their option.
fn project_words<'w>(arguments: &Arguments<'w>) -> Option<DesignWords<'w>>
    ensures { option_map design_seen result ≡ project_words (arguments_seen arguments.now) }
{
    let files = arguments.files();
    Some(DesignWords {
        project: plain_file(files, 0)?,
        sizes: plain_file(files, 1)?,
        friction: plain_file(files, 2)?,
        fittings: plain_file(files, 3)?,
        fans: plain_file(files, 4)?,
        return_fans: arguments.return_fans()?,
    })
}

/// The files of `design`.
fn design_words<'w>(arguments: &Arguments<'w>) -> Option<DesignWords<'w>>
    ensures { option_map design_seen result ≡ design_words (arguments_seen arguments.now) }
{
    if arguments.files().len() != 5 {
        return None;
    }
    project_words(arguments)
}

/// The files of `check`, with the design text behind the others.
fn check_words<'w>(arguments: &Arguments<'w>) -> Option<Command<'w>>
    ensures value { option_map command_seen result ≡ check_words (arguments_seen arguments.now) }
    ensures bounds { IfSome result (λ command. IsInBounds (command_seen command)) }
{
    if arguments.files().len() != 6 {
        return None;
    }
    let words = project_words(arguments)?;
    Some(Command::Check(words, plain_file(arguments.files(), 5)?))
}

/// The files of `edit`, with the script behind the others.
fn edit_words<'w>(arguments: &Arguments<'w>) -> Option<Command<'w>>
    ensures value { option_map command_seen result ≡ edit_words (arguments_seen arguments.now) }
    ensures bounds { IfSome result (λ command. IsInBounds (command_seen command)) }
{
    if arguments.files().len() != 6 {
        return None;
    }
    let words = project_words(arguments)?;
    Some(Command::Edit(words, plain_file(arguments.files(), 5)?))
}

/// The files of `verify`, with the design text behind the others where it is named.
fn verify_words<'w>(files: &Names<'w>) -> Option<VerifyWords<'w>>
    ensures { option_map verify_seen result ≡ verify_words files.now }
{
    if files.len() != 2 && files.len() != 3 {
        return None;
    }
    Some(VerifyWords {
        network: plain_file(files, 0)?,
        certificate: plain_file(files, 1)?,
        design: last_file(files)?,
    })
}

/// The third file, which is plain where it stands there.
fn last_file<'w>(files: &Names<'w>) -> Option<Option<&'w str>>
    ensures { option_map (option_map (λ word. word.now)) result ≡ last_file files.now }
{
    if files.len() != 3 {
        return Some(None);
    }
    Some(Some(plain_file(files, 2)?))
}

/// The files of `takeoff`.
fn takeoff_words<'w>(files: &Names<'w>) -> Option<TakeoffWords<'w>>
    ensures { option_map takeoff_seen result ≡ takeoff_words files.now }
{
    if files.len() != 2 {
        return None;
    }
    Some(TakeoffWords {
        project: plain_file(files, 0)?,
        design: plain_file(files, 1)?,
    })
}
