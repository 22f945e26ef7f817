//! Runs a script of calls on a shared lock over a raw lock, prints the answers, and stops at the first one that differs
//! from the `Desk`'s.
#![tactic(auto)]

use lock_choice::{Choice, replay};
use lock_script::ReplayFault;
use std::process::ExitCode;
use std::rt::Env;
use std::{env, io};

const USAGE: &str =
    "usage: lockconform word|table|timed|recording|fair|timed_fair|MISTAKE [within] [arc] [calls]";

/// What `--help` prints below the usage line.
const HELP: &str = "\
Runs a script from standard input on a lock over a raw lock, prints the answers, and stops at the first one that differs
from the Desk's.

  word, table, .., timed_fair  the raw lock
  MISTAKE                      a raw lock that makes this mistake
  within                       parks while the mutex is released, not by a release and an acquisition
  arc                          uses guards that own an Arc of the lock
  calls                        also prints the raw calls
  --help                       prints this help

The status is 0 without a difference, 1 with one or for a fault, and 2 for other words. conform/README.md has more.";

/// What the words ask for.
enum Request {
    Run(Choice),
    Help,
}

impl Request {
    /// Returns what the words ask for, or `None` for the usage line.
    fn of_words(words: &[String]) -> Option<Request> {
        if let [word] = words
            && word.as_str() == "--help"
        {
            return Some(Request::Help);
        }
        Some(Request::Run(Choice::of_words(words)?))
    }
}

fn main(rt: HostRuntime) -> ExitCode {
    let choice = match asked(&rt) {
        Ok(Some(Request::Run(choice))) => choice,
        Ok(Some(Request::Help)) => {
            return match println!(rt; "{USAGE}\n\n{HELP}") {
                Ok(()) => ExitCode::SUCCESS,
                Err(_) => ExitCode::FAILURE,
            };
        }
        Ok(None) => {
            let _ = eprintln!(rt; "{USAGE}");
            return ExitCode::from(2);
        }
        Err(fault) => return told(&rt, fault),
    };
    match replay(rt.alloc(), rt, choice, &mut rt.stdin(), &mut rt.stdout()) {
        Ok(None) => ExitCode::SUCCESS,
        Ok(Some(difference)) => {
            let _ = eprintln!(rt; "{}", difference.as_str());
            ExitCode::FAILURE
        }
        Err(fault) => told(&rt, fault),
    }
}

/// Returns what the words after the program's name ask for, or `None` where the usage line is the answer.
fn asked<R: Env + AllocGlobal>(rt: &R) -> Result<Option<Request>, ReplayFault> {
    let words = match env::args(rt) {
        Ok(args) => args.skip(1).collect::<Vec<_>>(rt.alloc())?,
        // A word that is not UTF-8 chooses none.
        Err(fault) if fault.kind() == io::ErrorKind::InvalidData => return Ok(None),
        Err(_) => return Err(ReplayFault::OutOfMemory),
    };
    Ok(Request::of_words(words.as_slice()))
}

/// Prints the fault, and gives the status of a run that ended early.
fn told(rt: &impl Eprint, fault: ReplayFault) -> ExitCode {
    let _ = eprintln!(rt; "{fault}");
    ExitCode::FAILURE
}
