//! The command line as `clap` is told of it.
ghost use Rattle.std.specs.Prelude.{◌≡◌, IfOk, codes, false, [], ◌∷◌};
ghost use Rattle.clap.specs.Simple.{app_of, shape_of};
ghost use Rattle.clap.specs.declared.builder.command.Command.TheViews.{out-Command};
ghost use Rattle.command_line.specs.App as spec;

use clap::{Arg, ArgAction, Command};
use std::alloc::{AllocError, Global};

/// `arrowmem` with its four subcommands. `clap` tells options from plain words; what the plain
/// words mean, and how many a command takes, is not its business.
pub(crate) fn app<'a>(alloc: Global) -> Result<Command<'a>, AllocError>
    ensures app { IfOk result (λ command. app_of command ≡ spec.app) }
{
    let trace = with_plain_words(alloc, "trace")?;
    let drive = with_plain_words(alloc, "drive")?;
    let query = with_option(alloc, "query", "workers")?;
    let generate = with_plain_words(alloc, "gen")?;
    bare(alloc)
        .subcommand(trace)?
        .subcommand(drive)?
        .subcommand(query)?
        .subcommand(generate)
}

// The command without its subcommands.
#[tactic(auto, using(crate::proofs::AppLemmas::top_of))]
fn bare<'a>(alloc: Global) -> Command<'a>
    ensures bare { app_of result ≡ spec.bare }
{
    Command::new(alloc, "arrowmem")
        .no_binary_name(true)
        .disable_help_flag(true)
        .disable_help_subcommand(true)
}

// A subcommand that takes plain words.
fn with_plain_words<'a>(alloc: Global, name: &'a str) -> Result<Command<'a>, AllocError>
    ensures shape { IfOk result (λ command. shape_of command ≡ spec.leaf name.entry.now []) }
    ensures local { IfOk result (λ command. (out-Command command).has_globals ≡ false) }
{
    let words = Arg::new(alloc, "words").action(ArgAction::Append);
    Command::new(alloc, name).arg(words)
}

// A subcommand that takes plain words and an option.
#[tactic(auto, using(crate::proofs::AppLemmas::with_option))]
fn with_option<'a>(alloc: Global, name: &'a str, option: &'a str) -> Result<Command<'a>, AllocError>
    ensures shape { IfOk result (λ command.
        shape_of command ≡ spec.leaf name.entry.now (option.entry.now ∷ [])) }
    ensures local { IfOk result (λ command. (out-Command command).has_globals ≡ false) }
{
    let option = Arg::new(alloc, option).long(option);
    with_plain_words(alloc, name)?.arg(option)
}
