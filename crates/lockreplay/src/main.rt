//! Replays a script of calls of a lock from standard input, and prints the answers.
#![tactic(auto)]

#[cfg(test)]
mod tests;

use lock_script::{ReplayFault, Which, replay, which};
use std::process::ExitCode;
use std::rt::Env;
use std::{env, io};

const USAGE: &str = "usage: lockreplay table|word|steps";

/// What `--help` prints below the usage line.
const HELP: &str = "\
Reads a script of calls of a lock from standard input, and prints the answer to each.

  table      on a table of tokens
  word       on the packed word
  steps      parties that make atomic steps on the packed word
  --help     prints this help
  --version  prints the version, and whether this program is proved

The status is 0 with all answers, 1 for a fault, and 2 for other words. docs/SCRIPTS.md has the format of scripts.";

/// The version of the file VERSION.
const VERSION: &str = "lockreplay 0.2.0";

/// How this program was made. `bin/build` writes the sum of the sources over this text of 80 bytes.
const MADE: &str =
    "not proved as it is: bin/build writes the sum of the sources here after a proof.";

/// What the words after the program's name ask for.
#[derive(Clone, Copy, PartialEq)]
enum Request {
    Replay(Which),
    Help,
    Version,
}

fn main(rt: HostRuntime) -> ExitCode {
    match asked(&rt) {
        Ok(Some(Request::Replay(machine))) => replayed(&rt, machine),
        Ok(Some(Request::Help)) => printed(println!(rt; "{USAGE}\n\n{HELP}")),
        Ok(Some(Request::Version)) => printed(println!(rt; "{VERSION}\n{MADE}")),
        Ok(None) => {
            let _ = eprintln!(rt; "{USAGE}");
            ExitCode::from(2)
        }
        Err(fault) => told(&rt, fault),
    }
}

/// Replays standard input on a machine.
fn replayed(rt: &HostRuntime, machine: Which) -> ExitCode {
    match replay(rt.alloc(), machine, &mut rt.stdin(), &mut rt.stdout()) {
        Ok(()) => ExitCode::SUCCESS,
        Err(fault) => told(rt, fault),
    }
}

/// Returns what the words after the program's name ask for, or `None` where the usage line is the answer.
fn asked<R: Env + AllocGlobal>(rt: &R) -> Result<Option<Request>, ReplayFault> {
    let words = match env::args(rt) {
        Ok(args) => args.skip(1).collect::<Vec<_>>(rt.alloc())?,
        // A word that is not UTF-8 asks for nothing.
        Err(fault) if fault.kind() == io::ErrorKind::InvalidData => return Ok(None),
        Err(_) => return Err(ReplayFault::OutOfMemory),
    };
    Ok(asked_by(words.as_slice()))
}

/// Returns what these words ask for.
fn asked_by(words: &[String]) -> Option<Request> {
    match words {
        [word] if matches!(word.as_str(), "-h" | "--help") => Some(Request::Help),
        [word] if word.as_str() == "--version" => Some(Request::Version),
        _ => which(words).map(Request::Replay),
    }
}

/// Returns the status of a run that only prints.
fn printed(done: io::Result<()>) -> ExitCode {
    match done {
        Ok(()) => ExitCode::SUCCESS,
        Err(_) => ExitCode::FAILURE,
    }
}

/// Prints the fault, and gives the status of a replay that ended early.
fn told(rt: &impl Eprint, fault: ReplayFault) -> ExitCode {
    let _ = eprintln!(rt; "{fault}");
    ExitCode::FAILURE
}
