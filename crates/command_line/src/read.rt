//! The words, read: `clap` tells plain words from options, and a command is made of both.
ghost use Rattle.std.specs.Prelude.{◌≡◌, IfOk, map, string_bytes, option_map, option_and_then};
ghost use Rattle.std.specs.Prelude.{unwrap_or, []};
ghost use Rattle.clap.specs.Simple.{subcommand_rows_of};
ghost use Rattle.clap.specs.Walk.{texts};
ghost use Rattle.command_line.specs.App as found;
ghost use Rattle.command_line.specs.Command as spec;

use crate::app::app;
use crate::command::Command;
use crate::number::number_in;
use clap::ArgMatches;
use clap::error::ErrorKind;
use std::alloc::{AllocError, Global};

/// The command that the words name, or none where they have no reading. The words are the
/// arguments without the program's name. An `Err` is want of memory.
pub fn read_command<'a>(
    alloc: Global,
    words: &'a [String],
) -> Result<Option<Command<'a>>, AllocError>
    ensures reading { IfOk result (λ command.
        spec.command_read command ≡ spec.command_of (map string_bytes words.entry.now)) }
{
    match parse(alloc, words)? {
        Some(matches) => Ok(command_of(&matches)),
        None => Ok(None),
    }
}

// What `clap` makes of the words, or nothing where it refuses them.
fn parse<'a>(alloc: Global, words: &'a [String]) -> Result<Option<ArgMatches<'a>>, AllocError>
    ensures found { IfOk result (λ matches.
        option_and_then subcommand_rows_of matches
        ≡ found.found_in (map string_bytes words.entry.now)) }
{
    let app = app(alloc)?;
    match app.try_get_matches_from(words) {
        Ok(matches) => Ok(Some(matches)),
        Err(error) if error.kind() == ErrorKind::OutOfMemory => Err(AllocError),
        Err(_) => Ok(None),
    }
}

// The command of the matches.
fn command_of<'a>(matches: &ArgMatches<'a>) -> Option<Command<'a>>
    ensures command { spec.command_read result
        ≡ found.command_found (subcommand_rows_of matches.now) }
{
    let (name, found) = matches.subcommand()?;
    command_named(
        name,
        listed(found.get_raw("words")),
        found.get_str("workers"),
    )
}

// The words that were given, if there were any.
fn listed<'a, 'b>(words: Option<&'b [&'a str]>) -> &'b [&'a str]
    ensures words { texts result.now
        ≡ unwrap_or (option_map (λ words. texts words.now) words.entry) [] }
{
    match words {
        Some(words) => words,
        None => &[],
    }
}

// The command of a subcommand with these words.
fn command_named<'a>(name: &str, words: &[&'a str], workers: Option<&str>) -> Option<Command<'a>>
    ensures command { spec.command_read result
        ≡ found.command_named name.now (texts words.now) (option_map (λ w. w.now) workers.entry) }
{
    match name {
        "trace" => trace(words),
        "query" => query(words, workers),
        _ => None,
    }
}

fn trace<'a>(words: &[&'a str]) -> Option<Command<'a>>
    ensures command { spec.command_read result ≡ spec.trace_of (texts words.now) }
{
    match words {
        [name] => Some(Command::Trace { file: file(name)? }),
        _ => None,
    }
}

fn query<'a>(words: &[&'a str], workers: Option<&str>) -> Option<Command<'a>>
    ensures command { spec.command_read result
        ≡ spec.query_of (texts words.now) (option_map (λ w. w.now) workers.entry) }
{
    match words {
        [plan, table] => Some(Command::Query {
            plan: file(plan)?,
            table: file(table)?,
            workers: workers_of(workers)?,
        }),
        _ => None,
    }
}

fn file<'a>(word: &'a str) -> Option<&'a str>
    ensures file { option_map (λ f. f.now) result ≡ spec.file_of word.now }
{
    if word.is_empty() { None } else { Some(word) }
}

// How many workers a query has.
fn workers_of(word: Option<&str>) -> Option<u32>
    ensures workers { result ≡ spec.workers_of (option_map (λ w. w.now) word.entry) }
{
    match word {
        Some(word) => number_in(1, 16, word),
        None => Some(1),
    }
}
