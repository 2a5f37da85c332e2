//! The command line as `clap` parses it.
ghost use Rattle.std.specs.Prelude.{◌≡◌, false, IfOk, map};
ghost use Rattle.clap.specs.Words.{FailsBy, app_of, fault_of, rows_of, rule_of, found_of, matches_of};
ghost use Rattle.whitehead.specs.CommandLine.{program, bare_program, command_rule, option_rule};

use clap::{Arg, ArgAction, ArgMatches, Command, Error};
use std::alloc::{AllocError, Global};

/// The word that has to stand.
fn command_word<'a>(alloc: Global) -> Arg<'a>
    ensures rule { rule_of result ≡ command_rule }
    ensures local { result.global ≡ false }
{
    Arg::new(alloc, "COMMAND")
        .required(true)
        .action(ArgAction::Set)
}

/// An option with one value.
fn option<'a>(alloc: Global, name: &'a str) -> Arg<'a>
    ensures rule { rule_of result ≡ option_rule name.now }
    ensures local { result.global ≡ false }
{
    Arg::new(alloc, name).long(name).action(ArgAction::Set)
}

/// The program without arguments: no flag asks for help or for the version, and its name isn't among the words.
fn bare_command<'a>(alloc: Global) -> Command<'a>
    ensures { app_of result ≡ bare_program }
{
    Command::new(alloc, "whitehead")
        .no_binary_name(true)
        .disable_help_flag(true)
        .disable_version_flag(true)
}

/// The program with its arguments. Each is made when the one before it is taken in, so that one owner lives at a time.
fn whole_command<'a>(alloc: Global) -> Result<Command<'a>, AllocError>
    ensures { IfOk result (λ c. app_of c ≡ program) }
{
    let command = bare_command(alloc).arg(command_word(alloc))?;
    let command = command.arg(option(alloc, "limit"))?;
    command.arg(option(alloc, "workers"))
}

/// The matches of the words. They are refused exactly where the parser's rules find a fault.
pub(crate) fn parsed_words<'a>(alloc: Global, words: &'a [&'a str]) -> Result<ArgMatches<'a>, Error>
    ensures fails { FailsBy (fault_of program (map (λ w. w.now) words.entry.now)) result }
    ensures matches { IfOk result (λ m. rows_of (found_of m) ≡ matches_of program (map (λ w. w.now) words.entry.now)) }
{
    whole_command(alloc)?.try_get_matches_from(words)
}
