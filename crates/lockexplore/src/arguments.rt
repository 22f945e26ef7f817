//! Reading the words after the program's name.
use crate::options::{Print, Sets, Takes, WORDS, Word};
use plan_answer::{Form, Options};
use script_text::unsigned;
use std::alloc::{AllocError, Global};

/// What the words ask for.
#[derive(Clone, Copy, PartialEq, Eq, Debug)]
pub(crate) struct Request {
    pub(crate) options: Options,
    pub(crate) is_quiet: bool,
    pub(crate) memory: Option<u64>,
    pub(crate) seconds: Option<u64>,
    /// What is printed in place of answers.
    pub(crate) print: Option<Print>,
}

/// Why words are wrong, with the number of the word.
#[derive(Clone, Copy, PartialEq, Eq, Debug)]
pub(crate) enum Wrong {
    Unknown(usize),
    /// An option lacks its value.
    NoValue(usize),
    /// An option has a value and takes none.
    TakesNone(usize),
    /// The word is, or ends in, no such value.
    BadValue(usize, Takes),
    /// A format comes after another one.
    TwoForms(usize),
}

/// The words so far.
#[derive(Drop)]
pub(crate) struct Arguments {
    pub(crate) request: Request,
    /// The numbers of the words that are files.
    pub(crate) files: Vec<usize>,
    /// The number of an option of which the next word is the value.
    awaited: Option<(usize, Takes)>,
    /// Whether all words from here on are files.
    has_ended: bool,
}

impl Arguments {
    /// Makes the request of no words.
    pub(crate) fn new(alloc: Global) -> Arguments {
        Arguments {
            request: Request {
                options: Options {
                    form: Form::Text,
                    has_lines: false,
                    is_core: false,
                },
                is_quiet: false,
                memory: None,
                seconds: None,
                print: None,
            },
            files: Vec::new(alloc),
            awaited: None,
            has_ended: false,
        }
    }

    /// Reads words, and returns the first that is wrong, if there is one.
    pub(crate) fn read(&mut self, words: &[String]) -> Result<Option<Wrong>, AllocError> {
        for (at, word) in words.iter().enumerate() {
            let wrong = self.add(at, word.as_str())?;
            if wrong.is_some() {
                return Ok(wrong);
            }
        }
        Ok(self.awaited.map(|option| Wrong::NoValue(option.0)))
    }

    /// Adds a word with this number.
    fn add(&mut self, at: usize, word: &str) -> Result<Option<Wrong>, AllocError> {
        if let Some((_, takes)) = self.awaited {
            self.awaited = None;
            return Ok(self.set_value(at, takes, word));
        }
        if word == "--" && !self.has_ended {
            self.has_ended = true;
            return Ok(None);
        }
        let is_option = word.starts_with('-') && word != "-";
        if self.has_ended || !is_option && !(self.files.is_empty() && known(word).is_some()) {
            self.files.push(at)?;
            return Ok(None);
        }
        let (name, value) = match word.split_once('=') {
            Some((name, value)) if is_option => (name, Some(value)),
            _ => (word, None),
        };
        Ok(match known(name) {
            Some(option) => self.set(at, option.3, value),
            None => Some(Wrong::Unknown(at)),
        })
    }

    /// Does what a known word sets, with this value after `=`.
    fn set(&mut self, at: usize, sets: Sets, value: Option<&str>) -> Option<Wrong> {
        match (sets, value) {
            (Sets::Value(takes), Some(value)) => return self.set_value(at, takes, value),
            (_, Some(_)) => return Some(Wrong::TakesNone(at)),
            (Sets::Value(takes), None) => self.awaited = Some((at, takes)),
            (Sets::Form(form), None) => return self.set_form(at, form),
            (Sets::Lines, None) => self.request.options.has_lines = true,
            (Sets::Core, None) => self.request.options.is_core = true,
            (Sets::Quiet, None) => self.request.is_quiet = true,
            (Sets::Print(print), None) => self.request.print = Some(print),
        }
        None
    }

    fn set_form(&mut self, at: usize, form: Form) -> Option<Wrong> {
        let set = self.request.options.form;
        if set != Form::Text && set != form {
            return Some(Wrong::TwoForms(at));
        }
        self.request.options.form = form;
        None
    }

    /// Sets the value of an option.
    fn set_value(&mut self, at: usize, takes: Takes, value: &str) -> Option<Wrong> {
        let bad = Some(Wrong::BadValue(at, takes));
        match takes {
            Takes::Format => match format(value) {
                Some(form) => return self.set_form(at, form),
                None => return bad,
            },
            Takes::Memory => match bytes(value) {
                Some(bytes) => self.request.memory = Some(bytes),
                None => return bad,
            },
            Takes::Seconds => match unsigned(value) {
                Some(seconds) => self.request.seconds = Some(seconds),
                None => return bad,
            },
            Takes::Shell => match value {
                "bash" => self.request.print = Some(Print::Bash),
                "zsh" => self.request.print = Some(Print::Zsh),
                _ => return bad,
            },
        }
        None
    }
}

/// Returns the word of the program with this name, if there is one.
fn known(name: &str) -> Option<Word> {
    let name = match name {
        "-h" => "--help",
        "-q" => "--quiet",
        _ => name,
    };
    WORDS.iter().find(|word| word.0 == name).copied()
}

/// Returns the format with this name.
fn format(name: &str) -> Option<Form> {
    match name {
        "text" => Some(Form::Text),
        "json" => Some(Form::Json),
        "dot" => Some(Form::Dot),
        "svg" => Some(Form::Svg),
        "lanes" => Some(Form::Lanes),
        _ => None,
    }
}

/// Reads a number of bytes, perhaps with `K`, `M`, `G` or `T` after it, each 1024 times the one before.
fn bytes(value: &str) -> Option<u64> {
    for (unit, shift) in [("K", 10u32), ("M", 20), ("G", 30), ("T", 40)] {
        if let Some(number) = value.strip_suffix(unit) {
            return unsigned(number)?.checked_mul(1u64 << shift);
        }
    }
    unsigned(value)
}
