// The command as `clap` sees it, and what `clap` matches of the arguments.
ghost use Rattle.std.specs.Prelude.{◌≡◌, ◌≢◌, Some, None, IfOk, IsErrOf, codes, map, option_map, string_bytes};
ghost use Rattle.clap.specs.Words.{app_of, first_of, found_of, kind_of, new_rule, rows_of, with_rule, fault_of, FailsBy, matches_of};
ghost use Rattle.gq_command.specs.Line.{bare, gsql, matched, option};

use crate::command::WordsFault;
use clap::error::ErrorKind;
use clap::{Arg, ArgMatches, Command, Error};
use std::alloc::{AllocError, Global};

/// Returns what `clap` matches of the arguments, if they are valid.
pub fn matches_in<'a>(alloc: Global, words: &'a [String]) -> Result<ArgMatches<'a>, WordsFault>
    ensures rows { IfOk result (λ found. matched (map string_bytes words.entry.now) ≡ Some (rows_of (found_of found))) }
    ensures usage { IsErrOf result WordsFault.Usage → matched (map string_bytes words.entry.now) ≡ None }
{
    match matched(alloc, words) {
        Ok(found) => Ok(found),
        Err(error) => Err(words_fault(&error)),
    }
}

/// Returns the value of an option or a positional, if it is given.
pub fn value_of<'a>(found: &ArgMatches<'a>, name: &str) -> Option<&'a str>
    ensures { option_map (λ text. text.now) result ≡ first_of name.now (rows_of (found_of found.now)) }
{
    found.get_str(name)
}

fn matched<'a>(alloc: Global, words: &'a [String]) -> Result<ArgMatches<'a>, Error>
    ensures ok { IfOk result (λ found. rows_of (found_of found) ≡ matches_of gsql (map string_bytes words.entry.now)) }
    ensures err { FailsBy (fault_of gsql (map string_bytes words.entry.now)) result }
{
    let command = command(alloc)?;
    command.try_get_matches_from(words)
}

fn words_fault(error: &Error) -> WordsFault
    ensures { result ≡ WordsFault.Usage → kind_of error.now ≢ ErrorKind.OutOfMemory }
{
    match error.kind() {
        ErrorKind::OutOfMemory => WordsFault::OutOfMemory,
        _ => WordsFault::Usage,
    }
}

fn command<'a>(alloc: Global) -> Result<Command<'a>, AllocError>
    ensures { IfOk result (λ command. app_of command ≡ gsql) }
{
    let one = with_option(alloc, empty(alloc), "workers")?;
    let two = with_option(alloc, one, "chunk")?;
    let three = with_option(alloc, two, "stripes")?;
    let four = with_option(alloc, three, "turns")?;
    let five = with_option(alloc, four, "args")?;
    let six = with_option(alloc, five, "sample")?;
    with_positional(alloc, six, "script")
}

fn empty<'a>(alloc: Global) -> Command<'a>
    ensures { app_of result ≡ bare }
{
    Command::new(alloc, "gsql")
        .no_binary_name(true)
        .disable_help_flag(true)
}

fn with_option<'a>(
    alloc: Global,
    command: Command<'a>,
    name: &'a str,
) -> Result<Command<'a>, AllocError>
    ensures { IfOk result (λ more. app_of more ≡ with_rule (app_of command.entry) (option name.entry.now)) }
{
    command.arg(Arg::new(alloc, name).long(name))
}

fn with_positional<'a>(
    alloc: Global,
    command: Command<'a>,
    name: &'a str,
) -> Result<Command<'a>, AllocError>
    ensures { IfOk result (λ more. app_of more ≡ with_rule (app_of command.entry) (new_rule name.entry.now)) }
{
    command.arg(Arg::new(alloc, name))
}
