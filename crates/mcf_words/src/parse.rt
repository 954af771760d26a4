//! The words after the command, parsed by `clap`.

ghost use Rattle.std.specs.Prelude.{◌≡◌, [], map, string_bytes, IfOk, false};
ghost use Rattle.clap.specs.Words.{app_of, rule_of};
ghost use Rattle.mcf_words.specs.Parse.{Parses, app_of_names, app_with, option_rule};

use crate::commands::form_of;
use crate::request::{Command, WordsEnd};
use clap::error::ErrorKind;
use clap::{Arg, ArgAction, ArgMatches};
use std::alloc::{AllocError, Global};

/// The id of the positional words.
pub const WORDS: &str = "WORDS";

// An option that takes one value.
fn option<'a>(alloc: Global, name: &'static str) -> Arg<'a>
    ensures rule { rule_of result ≡ option_rule name.entry.now }
    ensures local { result.global ≡ false }
{
    Arg::new(alloc, name).long(name).action(ArgAction::Set)
}

// A command without help and version.
fn bare<'a>(alloc: Global) -> clap::Command<'a>
    ensures { app_of result ≡ app_with [] }
{
    clap::Command::new(alloc, "mcf")
        .no_binary_name(true)
        .disable_help_flag(true)
        .disable_version_flag(true)
}

// A command with these options, and any number of positional words.
fn command_with<'a>(alloc: Global, names: &[&'static str]) -> Result<clap::Command<'a>, AllocError>
    ensures { IfOk result (λ c. app_of c ≡ app_of_names (map (λ n. n.now) names.now)) }
{
    let mut command = bare(alloc);
    for name in names {
        command = command.arg(option(alloc, *name))?;
    }
    command.arg(Arg::new(alloc, WORDS).action(ArgAction::Append))
}

/// The words after the command, parsed. `Usage` only where they ask for nothing.
pub fn parsed<'a>(
    alloc: Global,
    command: Command,
    words: &'a [String],
) -> Result<ArgMatches<'a>, WordsEnd>
    ensures { Parses command (map string_bytes words.now) result }
{
    let parser = command_with(alloc, form_of(command).options)?;
    match parser.try_get_matches_from(words) {
        Ok(matches) => Ok(matches),
        Err(error) => match error.kind() {
            ErrorKind::OutOfMemory => Err(WordsEnd::Memory),
            _ => Err(WordsEnd::Usage),
        },
    }
}
