//! The programs `lockexplore` and `lockreplay` as functions of bytes, in a static library for a page in a browser.
//!
//! The page gives a text, and room for what the program would print. No function blocks or does IO, and none reads memory
//! other than its arguments and the heap.
#![tactic(auto)]

mod asked;
mod no_files;
mod room;

use crate::asked::{Endless, form_of_number, machine_of_number};
use crate::no_files::NoFiles;
use crate::room::Room;
use lock_script::{ReplayFault, answers};
use plan_answer::{Answer, NoAnswer, Options, Status, explore_plan};
use script_text::read_script;
use std::alloc::{AllocError, Global};

/// The name of a text in what is told of it.
const INPUT: &str = "<stdin>";

/// What a program tells of a text. The bytes of a text that has no room are not written.
#[repr(C)]
#[derive(Drop)]
pub struct PageAnswer {
    /// The status that the program ends with.
    pub status: u64,
    /// How many bytes the answer has, or the text that says why there is none.
    pub text: u64,
    /// How many bytes the warning has, behind the text.
    pub warning: u64,
    /// How many states the search reached.
    pub states: u64,
}

/// Writes what `lockexplore` answers to the plan of a text, within so many bytes of memory.
///
/// `form` is 0 for text, 1 for lanes, 2 for a picture in SVG, 3 for JSON, 4 for DOT, 5 for an order, and 6 for the plan as it is
/// searched. Steps and waits have the numbers of their lines unless `has_lines` is 0.
#[unsafe(no_mangle)]
pub extern "C" fn lock_page_plan(
    alloc: Global,
    text: &[u8],
    form: u32,
    has_lines: u8,
    memory: usize,
    room: &mut [u8],
    told: &mut PageAnswer,
) {
    let options = Options {
        form: form_of_number(form),
        has_lines: has_lines != 0,
        is_core: false,
    };
    let mut reader = text;
    let found = explore_plan(
        alloc,
        INPUT,
        options,
        memory,
        &mut Endless,
        &mut NoFiles,
        &mut reader,
    );
    *told = told_of_plan(alloc, &mut Room::new(room), &found);
}

/// Writes an answer and its warning, or why there is none.
fn told_of_plan(alloc: Global, room: &mut Room, found: &Result<Answer, NoAnswer>) -> PageAnswer {
    match found {
        Ok(answer) => PageAnswer {
            status: u64::from(Status::of(answer.verdict).code()),
            text: room.put(answer.text.as_str()),
            warning: match &answer.warning {
                Some(warning) => room.put(warning.as_str()),
                None => 0,
            },
            states: answer.states as u64,
        },
        Err(why) => {
            let status = Status::without_answer(why).code();
            let text: Result<String, AllocError> = format!(in alloc; "{why}");
            refused(room, status, &text)
        }
    }
}

/// Writes what `lockreplay` answers to the script of a text.
///
/// `machine` is 0 for a table of tokens, 1 for the packed word, and 2 for parties that make atomic steps on it.
#[unsafe(no_mangle)]
pub extern "C" fn lock_page_script(
    alloc: Global,
    text: &[u8],
    machine: u32,
    room: &mut [u8],
    told: &mut PageAnswer,
) {
    let room = &mut Room::new(room);
    *told = match script_answers(alloc, machine, text) {
        Ok(answers) => told_alone(room, 0, answers.as_str()),
        Err(why) => {
            let text: Result<String, AllocError> = format!(in alloc; "{why}");
            refused(room, 1, &text)
        }
    };
}

/// Makes the answers to a script.
fn script_answers(alloc: Global, machine: u32, text: &[u8]) -> Result<String, ReplayFault> {
    let mut reader = text;
    let script = read_script(alloc, &mut reader)?;
    answers(alloc, machine_of_number(machine), script)
}

/// Writes why there is no answer.
fn refused(room: &mut Room, status: u8, why: &Result<String, AllocError>) -> PageAnswer {
    match why {
        Ok(why) => told_alone(room, status, why.as_str()),
        Err(_) => told_alone(room, status, "out of memory"),
    }
}

/// Writes a text, with nothing behind it.
fn told_alone(room: &mut Room, status: u8, text: &str) -> PageAnswer {
    PageAnswer {
        status: u64::from(status),
        text: room.put(text),
        warning: 0,
        states: 0,
    }
}
