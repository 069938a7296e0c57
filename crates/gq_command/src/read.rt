// From a command line to a command.
ghost use Rattle.std.specs.Prelude.{◌≡◌, Some, None, IfOk, IfSome, IsErrOf, map, option_map, string_bytes};
ghost use Rattle.clap.specs.Words.{found_of, rows_of};
ghost use Rattle.gq_command.specs.Words.{command_from, command_of, shape_of, task_of, turns_of};
ghost use Rattle.gq_command.specs.Number.{number_to};
ghost use Rattle.gq_command.specs.Ranges.{InRange, IsUpTo, ShapeInRange, TaskInRange};

use crate::command::{Command, Task, WordsFault};
use crate::line::{matches_in, value_of};
use crate::number::{number_or, number_to};
use clap::ArgMatches;
use gq_base::OutOfMemory;
use gq_io::Shape;
use gq_value::Txt;
use std::alloc::Global;

/// Parses the arguments after the program's name into a command.
///
/// A number is one to ten ASCII digits. A script and `--sample` are mutually exclusive, and so are `--args` and
/// `--sample`.
pub fn read_words(alloc: Global, words: &[String]) -> Result<Command, WordsFault>
    ensures command { IfOk result (λ command. command_of (map string_bytes words.now) ≡ Some command) }
    ensures range { IfOk result (λ command. InRange command) }
    ensures usage { IsErrOf result WordsFault.Usage → command_of (map string_bytes words.now) ≡ None }
{
    let found = match matches_in(alloc, words) {
        Ok(found) => found,
        Err(fault) => return Err(fault),
    };
    match command_in(alloc, &found)? {
        Some(command) => Ok(command),
        None => Err(WordsFault::Usage),
    }
}

fn command_in(alloc: Global, found: &ArgMatches<'_>) -> Result<Option<Command>, OutOfMemory>
    ensures command { IfOk result (λ command. command ≡ command_from (rows_of (found_of found.now))) }
    ensures range { IfOk result (λ command. IfSome command (λ found. InRange found)) }
{
    let shape = match shape_in(found) {
        Some(shape) => shape,
        None => return Ok(None),
    };
    let turns = match turns_in(found) {
        Some(turns) => turns,
        None => return Ok(None),
    };
    match task_in(alloc, found)? {
        Some(task) => Ok(Some(Command { shape, turns, task })),
        None => Ok(None),
    }
}

fn shape_in(found: &ArgMatches<'_>) -> Option<Shape>
    ensures shape { result ≡ shape_of (rows_of (found_of found.now)) }
    ensures range { IfSome result (λ shape. ShapeInRange shape) }
{
    let workers = number_or(value_of(found, "workers"), 4, 64)?;
    let chunk = number_or(value_of(found, "chunk"), 1024, 1_048_576)?;
    let stripes = number_or(value_of(found, "stripes"), 16, 256)?;
    Some(Shape {
        workers: workers as u32,
        chunk,
        stripes: stripes as u32,
    })
}

fn turns_in(found: &ArgMatches<'_>) -> Option<u64>
    ensures turns { result ≡ turns_of (rows_of (found_of found.now)) }
    ensures range { IfSome result (λ turns. IsUpTo 1000000000 turns) }
{
    number_or(value_of(found, "turns"), 1_000_000, 1_000_000_000)
}

fn task_in(alloc: Global, found: &ArgMatches<'_>) -> Result<Option<Task>, OutOfMemory>
    ensures task { IfOk result (λ task. task ≡ task_of (rows_of (found_of found.now))) }
    ensures range { IfOk result (λ task. IfSome task TaskInRange) }
{
    let script = value_of(found, "script");
    let arguments = value_of(found, "args");
    let people = value_of(found, "sample");
    match (script, arguments, people) {
        (Some(path), _, None) => Ok(Some(Task::Script {
            path: Txt::of(alloc, path)?,
            arguments: copied(alloc, arguments)?,
        })),
        (None, None, Some(people)) => Ok(sample_of(people)),
        (Some(_), _, Some(_)) => Ok(None),
        (None, Some(_), _) => Ok(None),
        (None, None, None) => Ok(None),
    }
}

fn copied(alloc: Global, text: Option<&str>) -> Result<Option<Txt>, OutOfMemory>
    ensures { IfOk result (λ copy. copy ≡ option_map (λ t. t.now) text.entry) }
{
    match text {
        Some(text) => Ok(Some(Txt::of(alloc, text)?)),
        None => Ok(None),
    }
}

fn sample_of(people: &str) -> Option<Task>
    ensures task { result ≡ option_map Task.Sample (number_to 1000000 people.now) }
    ensures range { IfSome result TaskInRange }
{
    match number_to(people, 1_000_000) {
        Some(number) => Some(Task::Sample(number as u32)),
        None => None,
    }
}
