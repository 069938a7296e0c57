//! The program `gsql`: runs a GSQL script and prints one JSON line per statement.
//!
//! The one call that matters is `run` of `gq_driver`: its contract is the contract of the whole program. Here it is
//! given an engine for its queries, the arguments, the host's files and standard output, and the program exits with the
//! number of its status.
#![tactic(auto)]

ghost use Rattle.std.specs.Prelude.{◌≡◌, ◌≢◌};
ghost use Rattle.std.specs.Process.{exit_status};
ghost use Rattle.std.specs.IoError.{error_kind};
ghost use Rattle.gq_diagnostics.specs.Codes.{code_of};

use gq_diagnostics::Status;
use gq_driver::run;
use gq_engine::Engine;
use gq_io::{AnyGate, HostFiles, HostSink};
use std::io::ErrorKind;
use std::process::ExitCode;
use std::{env, io};

fn main(rt: HostRuntime) -> ExitCode {
    let mut words = Vec::new(rt.alloc());
    if let Err(error) = read_words(&rt, &mut words) {
        return end_without_words(&rt, &error);
    }
    let engine = Engine {
        gate: AnyGate::Open,
    };
    let status = run(
        &rt,
        &engine,
        rt.alloc(),
        &words,
        &mut HostFiles::new(&rt),
        &mut HostSink::new(&rt),
    );
    end(&rt, status)
}

fn read_words(rt: &HostRuntime, words: &mut Vec<String>) -> io::Result<()> {
    for word in env::args(rt)?.skip(1) {
        words.push(word)?;
    }
    Ok(())
}

// Exits with this status, after a message on standard error if standard output has none.
fn end(rt: &impl Eprint, status: Status) -> ExitCode
    ensures { exit_status result ≡ code_of status }
{
    if let Some(message) = status.message() {
        let _ = rt.eprintln(message);
    }
    ExitCode::from(status.code())
}

// The run has no arguments: memory ran out, or the system didn't supply them.
fn end_without_words(rt: &impl Eprint, error: &io::Error) -> ExitCode
    ensures memory { error_kind error.now ≡ ErrorKind.OutOfMemory → exit_status result ≡ code_of Status.OutOfMemory }
    ensures other { error_kind error.now ≢ ErrorKind.OutOfMemory → exit_status result ≡ 6 }
{
    if error.kind() == ErrorKind::OutOfMemory {
        return end(rt, Status::OutOfMemory);
    }
    let _ = rt.eprintln("gsql: the words could not be read");
    ExitCode::from(6)
}
