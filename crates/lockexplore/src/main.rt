//! Reads plans of parties from files or standard input, and prints whether they can deadlock.
#![tactic(auto)]

mod arguments;
mod disk;
mod machine;
mod options;
mod usage;
mod watch;

use crate::arguments::{Arguments, Request};
use crate::disk::{Disk, open_fault};
use crate::machine::half_of_memory;
use crate::options::Print;
use crate::watch::Watch;
use plan_answer::{Answer, Form, NoAnswer, Status, Verdict, explore_plan};
use std::alloc::AllocError;
use std::io::{self, IsTerminal, Read, Write};
use std::process::ExitCode;
use std::rt::Env;
use std::{env, fs};

/// The version of the file VERSION.
const VERSION: &str = "lockexplore 0.2.0";

/// How this program was made. `bin/build` writes the sum of the sources over this text of 80 bytes.
const MADE: &str =
    "not proved as it is: bin/build writes the sum of the sources here after a proof.";

/// The name of standard input in what is told of it.
const INPUT: &str = "<stdin>";

fn main(rt: HostRuntime) -> ExitCode {
    let words = match words(&rt) {
        Ok(Some(words)) => words,
        Ok(None) => return misused(&rt, "a word is not UTF-8"),
        Err(_) => return refused(&rt),
    };
    let mut arguments = Arguments::new(rt.alloc());
    match arguments.read(words.as_slice()) {
        Ok(None) => {}
        Ok(Some(wrong)) => {
            return match usage::why(rt.alloc(), wrong, words.as_slice()) {
                Ok(why) => misused(&rt, why.as_str()),
                Err(_) => refused(&rt),
            };
        }
        Err(_) => return refused(&rt),
    }
    let request = arguments.request;
    match request.print {
        Some(print) => printed(&rt, print),
        None => answered(&rt, request, words.as_slice(), arguments.files.as_slice()),
    }
}

/// Tells why the words are wrong.
fn misused(rt: &HostRuntime, why: &str) -> ExitCode {
    let _ = eprintln!(rt; "lockexplore: {why}\n{}", usage::USAGE);
    ExitCode::from(2)
}

fn refused(rt: &HostRuntime) -> ExitCode {
    let _ = eprintln!(rt; "{}", NoAnswer::OutOfMemory);
    ExitCode::from(Status::Unanswered.code())
}

/// Prints something in place of answers.
fn printed(rt: &HostRuntime, print: Print) -> ExitCode {
    let alloc = rt.alloc();
    let text = match print {
        Print::Help => usage::help(alloc),
        Print::Version => format!(in alloc; "{VERSION}\n{MADE}\n"),
        Print::Man => usage::man(alloc),
        Print::Bash => usage::bash(alloc),
        Print::Zsh => usage::zsh(alloc),
    };
    match text {
        Ok(text) => match rt.stdout().write_all(text.as_bytes()) {
            Ok(()) => ExitCode::SUCCESS,
            Err(_) => ExitCode::FAILURE,
        },
        Err(_) => refused(rt),
    }
}

/// Answers the plan of each file, or of standard input if there is none, and gives the worst status.
fn answered(rt: &HostRuntime, request: Request, words: &[String], files: &[usize]) -> ExitCode {
    if files.is_empty() {
        return ExitCode::from(file_status(rt, request, "-", None).code());
    }
    let mut status = Status::Fine;
    let mut gap = "";
    for file in files {
        let file = match words.get(*file) {
            Some(word) => word.as_str(),
            None => "-",
        };
        let has_head = files.len() > 1 && request.options.form != Form::Json;
        let above = if has_head { Some(gap) } else { None };
        let said = file_status(rt, request, file, above);
        if matches!(said, Status::Fine | Status::Stops) {
            gap = "\n";
        }
        status = status.or_worse(said);
    }
    ExitCode::from(status.code())
}

/// Prints the answer to a file's plan, perhaps below a gap and its name, and gives the status.
fn file_status(rt: &HostRuntime, request: Request, file: &str, above: Option<&str>) -> Status {
    if file == "-" {
        let found = searched(rt, request, INPUT, &mut rt.stdin());
        return told(rt, request, INPUT, above, found);
    }
    match fs::open(rt, file) {
        Ok(mut reader) => {
            let found = searched(rt, request, file, &mut reader);
            told(rt, request, file, above, found)
        }
        Err(fault) => unopened(rt, file, fault.kind()),
    }
}

/// Reads a plan and makes the answer. Tells on a terminal how far the search is.
fn searched<R: Read>(
    rt: &HostRuntime,
    request: Request,
    file: &str,
    reader: &mut R,
) -> Result<Answer, NoAnswer> {
    let mut watch = Watch::new(rt, request.seconds, request.is_quiet);
    let memory = match request.memory {
        Some(bytes) => usize::try_from(bytes).unwrap_or(usize::MAX),
        None => half_of_memory(rt),
    };
    let answer = explore_plan(
        rt.alloc(),
        file,
        request.options,
        memory,
        &mut watch,
        &mut Disk { rt },
        reader,
    );
    watch.end();
    answer
}

/// Prints an answer and its warning, or why there is none, and gives the status.
fn told(
    rt: &HostRuntime,
    request: Request,
    file: &str,
    above: Option<&str>,
    found: Result<Answer, NoAnswer>,
) -> Status {
    let answer = match found {
        Ok(answer) => answer,
        Err(why) => return unanswered(rt, file, &why),
    };
    if request.is_quiet {
        return Status::of(answer.verdict);
    }
    if print_answer(rt, request, file, above, &answer).is_err() {
        return unanswered(rt, file, &NoAnswer::OutputFailed);
    }
    if let Some(warning) = &answer.warning {
        let (name, gap) = before(file);
        let _ = eprintln!(rt; "{name}{gap}{}", warning.as_str());
    }
    Status::of(answer.verdict)
}

fn print_answer(
    rt: &HostRuntime,
    request: Request,
    file: &str,
    above: Option<&str>,
    answer: &Answer,
) -> io::Result<()> {
    if let Some(gap) = above {
        print!(rt; "{gap}{file}:\n")?;
    }
    let text = answer.text.as_str();
    let is_text = matches!(request.options.form, Form::Text | Form::Lanes | Form::Order);
    match text.split_once('\n') {
        Some((first, rest)) if is_text && has_color(rt) => {
            let color = match answer.verdict {
                Verdict::NeverStops => 32,
                Verdict::Stops | Verdict::Unordered => 31,
            };
            print!(rt; "\u{1b}[1;{color}m{first}\u{1b}[0m\n")?;
            rt.stdout().write_all(rest.as_bytes())
        }
        _ => rt.stdout().write_all(text.as_bytes()),
    }
}

/// Returns whether answers have a color: standard output is a terminal, and NO_COLOR is not set.
fn has_color(rt: &HostRuntime) -> bool {
    rt.stdout().is_terminal()
        && match env::var(rt, "NO_COLOR") {
            Ok(value) => value.is_empty(),
            Err(_) => true,
        }
}

/// Tells why there is no answer to a file's plan, and gives the status.
fn unanswered(rt: &HostRuntime, file: &str, why: &NoAnswer) -> Status {
    let (name, gap) = before(file);
    let _ = match why {
        NoAnswer::Lines(text) => eprintln!(rt; "{}", text.as_str()),
        _ => eprintln!(rt; "{name}{gap}{why}"),
    };
    Status::without_answer(why)
}

/// Returns what is before a text about a file: its name and a colon, or nothing for standard input.
fn before(file: &str) -> (&str, &'static str) {
    if file == INPUT {
        ("", "")
    } else {
        (file, ": ")
    }
}

/// Prints why a file was not opened, and gives the status.
fn unopened(rt: &HostRuntime, file: &str, why: io::ErrorKind) -> Status {
    let why = open_fault(why);
    let _ = eprintln!(rt; "cannot read '{file}': {why}");
    Status::Faulty
}

/// Returns the words after the program's name, or `None` where one is not UTF-8.
fn words<R: Env + AllocGlobal>(rt: &R) -> Result<Option<Vec<String>>, AllocError> {
    match env::args(rt) {
        Ok(args) => Ok(Some(args.skip(1).collect::<Vec<_>>(rt.alloc())?)),
        Err(fault) if fault.kind() == io::ErrorKind::InvalidData => Ok(None),
        Err(_) => Err(AllocError),
    }
}
