//! From the words of the command line to a [`Line`].
ghost use Rattle.std.specs.Prelude.{◌≡◌, ◌≤◌, IfOk, Some, map, option_and_then, string_bytes};
ghost use Rattle.clap.specs.Words.{found_of, rows_of, subcommand_rows_of};
ghost use Rattle.clap.specs.Walk.{one_of};
ghost use Rattle.asl_line.specs.Line.{line_of, command_from, number_or, number_in, within_or, files_in, steps_in, budget_in, words_in};
ghost use Rattle.asl_line.specs.private.Model.{meaning_of, HasSize};

use crate::commands::{MOST_SIZE, MOST_SPLITS, MOST_STEPS, asl_command};
use clap::ArgMatches;
use clap::error::ErrorKind;
use std::alloc::{AllocError, Global};

/// The steps of a run where the command line gives no number.
const DEFAULT_STEPS: u32 = 1_000_000;

/// The splits of masks where the command line gives no number.
const DEFAULT_BUDGET: u32 = 100_000;

/// What a command line asks for: a command with its options and the names of its files.
#[derive(Debug, Drop)]
pub enum Line {
    /// The words are not a command.
    Usage,
    /// Reads and checks the files.
    Check {
        files: Vec<String>,
    },
    /// Reads and checks the files, and runs the program with at most this many steps, 1 to 1,000,000,000.
    Run {
        steps: u32,
        files: Vec<String>,
    },
    /// Reads and checks the files, and runs the program on each word of the list of this name, with at most this many steps, 1 to
    /// 1,000,000,000.
    Exec {
        steps: u32,
        list: String,
        files: Vec<String>,
    },
    /// Makes the text of this number and this size, 1 to 2,000, checks it and runs it.
    Generate {
        number: u32,
        size: u32,
    },
    /// Reads and checks the files, and writes the tables of their masks; the search for a word that no mask of a table matches splits
    /// at most this often, 1 to 1,000,000,000.
    Masks {
        budget: u32,
        files: Vec<String>,
    },
}

/// The number that was given for an option.
fn number_read(matches: &ArgMatches<'_>, id: &str) -> Option<u32>
    ensures { result ≡ option_and_then number_in (one_of id.now (rows_of (found_of matches.now))) }
{
    matches.get_one::<u32>(id)
}

/// The number where it is within the bounds, and otherwise `other`.
fn within(number: Option<u32>, low: u32, high: u32, other: u32) -> u32
    ensures is { result ≡ within_or number low high other }
    ensures bounds { low ≤ other → other ≤ high → (low ≤ result) × (result ≤ high) }
{
    match number {
        Some(n) if low <= n && n <= high => n,
        _ => other,
    }
}

/// The number that was given for an option, where it is within the bounds, and otherwise `other`.
fn number_given(matches: &ArgMatches<'_>, id: &str, low: u32, high: u32, other: u32) -> u32
    ensures is { result ≡ number_or (one_of id.now (rows_of (found_of matches.now))) low high other }
    ensures bounds { low ≤ other → other ≤ high → (low ≤ result) × (result ≤ high) }
{
    within(number_read(matches, id), low, high, other)
}

/// The steps that were given, or those of a run where none are.
fn steps_given(matches: &ArgMatches<'_>) -> u32
    ensures { result ≡ steps_in (rows_of (found_of matches.now)) }
{
    number_given(matches, "steps", 1, MOST_STEPS, DEFAULT_STEPS)
}

/// The splits of masks that were given, or those of a search where none are.
fn budget_given(matches: &ArgMatches<'_>) -> u32
    ensures { result ≡ budget_in (rows_of (found_of matches.now)) }
{
    number_given(matches, "budget", 1, MOST_SPLITS, DEFAULT_BUDGET)
}

/// The names of the files that were given.
fn files_given(alloc: Global, matches: &ArgMatches<'_>) -> Result<Vec<String>, AllocError>
    ensures { IfOk result (λ files. map string_bytes files.items ≡ files_in (rows_of (found_of matches.now))) }
{
    match matches.get_strs("file") {
        Some(names) => copied(alloc, names),
        None => Ok(Vec::new(alloc)),
    }
}

/// The name of the word list that was given.
fn words_given(alloc: Global, matches: &ArgMatches<'_>) -> Result<String, AllocError>
    ensures { IfOk result (λ list. string_bytes list ≡ words_in (rows_of (found_of matches.now))) }
{
    match matches.get_str("words") {
        Some(name) => String::from_str(alloc, name),
        None => Ok(String::new(alloc)),
    }
}

/// Owned copies of the texts.
fn copied(alloc: Global, names: &[&str]) -> Result<Vec<String>, AllocError>
    ensures { IfOk result (λ files. map string_bytes files.items ≡ map (λ name. name.now) names.now) }
{
    let mut files = Vec::new(alloc);
    for name in names {
        files.push(String::from_str(alloc, name)?)?;
    }
    Ok(files)
}

/// What the command of this name asks for, by its matches.
fn line_named(alloc: Global, name: &str, given: &ArgMatches<'_>) -> Result<Line, AllocError>
    ensures meaning { IfOk result (λ line. meaning_of line ≡ command_from (Some (name.now, rows_of (found_of given.now)))) }
    ensures size { IfOk result HasSize }
{
    if name == "check" {
        let files = files_given(alloc, given)?;
        Ok(Line::Check { files })
    } else if name == "run" {
        let steps = steps_given(given);
        let files = files_given(alloc, given)?;
        Ok(Line::Run { steps, files })
    } else if name == "exec" {
        let steps = steps_given(given);
        let list = words_given(alloc, given)?;
        let files = files_given(alloc, given)?;
        Ok(Line::Exec { steps, list, files })
    } else if name == "self" {
        let number = number_given(given, "number", 0, u32::MAX, 0);
        let size = number_given(given, "size", 1, MOST_SIZE, 1);
        Ok(Line::Generate { number, size })
    } else {
        let budget = budget_given(given);
        let files = files_given(alloc, given)?;
        Ok(Line::Masks { budget, files })
    }
}

/// What the matches ask for.
fn line_from(alloc: Global, matches: &ArgMatches<'_>) -> Result<Line, AllocError>
    ensures meaning { IfOk result (λ line. meaning_of line ≡ command_from (subcommand_rows_of matches.now)) }
    ensures size { IfOk result HasSize }
{
    match matches.subcommand() {
        Some((name, given)) => line_named(alloc, name, given),
        None => Ok(Line::Usage),
    }
}

/// Reads the words of the command line, of which the first is the name of the program. `Usage` where clap refuses them for
/// any other reason than memory, and an error where it has no memory.
pub fn parse(alloc: Global, words: &[String]) -> Result<Line, AllocError>
    ensures meaning { IfOk result (λ line. meaning_of line ≡ line_of (map string_bytes words.now)) }
    ensures size { IfOk result HasSize }
{
    let command = asl_command(alloc)?;
    match command.try_get_matches_from(words) {
        Ok(matches) => line_from(alloc, &matches),
        Err(error) => {
            if error.kind() == ErrorKind::OutOfMemory {
                return Err(AllocError);
            }
            Ok(Line::Usage)
        }
    }
}
