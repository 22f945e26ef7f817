//! The texts about the program's words, all from their table.
use crate::arguments::Wrong;
use crate::options::{Sets, WORDS, Word};
use std::alloc::{AllocError, Global};

/// The usage line.
pub(crate) const USAGE: &str =
    "usage: lockexplore [WORD..] [FILE..]; lockexplore --help tells the words";

/// What the program does.
const DOES: &str =
    "Reads a plan of lock calls from each file, or from standard input, and prints whether its parties can deadlock.";

/// What the statuses say.
const STATUSES: &str =
    "The status is 0 without a deadlock, 3 for a deadlock, a refused call, a failed assertion or no order, 1 for a bad plan or file, 4 for no
answer in the memory or the time, and 2 for other words. Of several files the worst decides: 3, then 1, then 4.";

/// What the environment says.
const COLORS: &str =
    "The first line of an answer has a color on a terminal, unless NO_COLOR is set.";

/// The width of a word and its value in the help.
const WIDTH: usize = 24;

/// Makes the help.
pub(crate) fn help(alloc: Global) -> Result<String, AllocError> {
    let mut text = format!(in alloc; "usage: lockexplore [WORD..] [FILE..]\n\n{DOES}\n\n")?;
    for word in &WORDS {
        let start = text.len();
        write!(text, "  {}", word.0)?;
        if !word.1.is_empty() {
            write!(text, " {}", word.1)?;
        }
        let written = text.len().saturating_sub(start);
        for _space in written..WIDTH {
            text.push(' ')?;
        }
        writeln!(text, "{}", word.2)?;
    }
    write!(
        text,
        "\nWords come in any order. An option's value may come after `=`. A file `-` is standard input.\n{COLORS}\n\n{STATUSES}\n\ndocs/PLANS.md has the format of plans.\n"
    )?;
    Ok(text)
}

/// Makes the page of the manual, in the language of man.
pub(crate) fn man(alloc: Global) -> Result<String, AllocError> {
    let mut text = String::from_str(
        alloc,
        ".TH LOCKEXPLORE 1\n.SH NAME\nlockexplore \\- says whether a plan of lock calls can deadlock\n.SH SYNOPSIS\n.B lockexplore\n[WORD..] [FILE..]\n.SH DESCRIPTION\n",
    )?;
    writeln!(text, "{DOES}\n.SH WORDS")?;
    for word in &WORDS {
        text.push_str(".TP\n.B ")?;
        write_escaped(&mut text, word.0, '-')?;
        if !word.1.is_empty() {
            write!(text, " {}", word.1)?;
        }
        writeln!(text, "\n{}", word.2)?;
    }
    writeln!(
        text,
        ".SH EXIT STATUS\n{STATUSES}\n.SH ENVIRONMENT\n{COLORS}"
    )?;
    Ok(text)
}

/// Makes the completions for bash.
pub(crate) fn bash(alloc: Global) -> Result<String, AllocError> {
    let mut text = String::from_str(alloc, "_lockexplore() {\n    case $3 in\n")?;
    for word in &WORDS {
        if let Sets::Value(takes) = word.3 {
            writeln!(
                text,
                "        {}) COMPREPLY=($(compgen -W '{}' -- \"$2\")); return ;;",
                word.0,
                takes.values()
            )?;
        }
    }
    text.push_str("    esac\n    COMPREPLY=($(compgen -W '")?;
    for word in &WORDS {
        write!(text, "{} ", word.0)?;
    }
    text.push_str(
        "' -- \"$2\") $(compgen -f -- \"$2\"))\n}\ncomplete -o filenames -F _lockexplore lockexplore\n",
    )?;
    Ok(text)
}

/// Makes the completions for zsh.
pub(crate) fn zsh(alloc: Global) -> Result<String, AllocError> {
    let mut text = String::from_str(
        alloc,
        "#compdef lockexplore\n_lockexplore_words() {\n    local -a words=(\n",
    )?;
    for word in &WORDS {
        if !is_option(word) {
            text.push_str("        '")?;
            write_described(&mut text, word)?;
        }
    }
    text.push_str("    )\n    _describe word words\n    _files\n}\n_arguments \\\n")?;
    for word in &WORDS {
        if is_option(word) && word.0 != "--" {
            text.push_str("    '")?;
            write_option(&mut text, word)?;
        }
    }
    text.push_str("    '*: :_lockexplore_words'\n")?;
    Ok(text)
}

fn is_option(word: &Word) -> bool {
    word.0.starts_with('-')
}

/// Appends a word and its help, up to the end of its line.
fn write_described(text: &mut String, word: &Word) -> Result<(), AllocError> {
    write!(text, "{}:", word.0)?;
    write_quoted(text, word.2)?;
    text.push_str("'\n")
}

/// Appends an option, its help and its values, up to the end of its line.
fn write_option(text: &mut String, word: &Word) -> Result<(), AllocError> {
    text.push_str(word.0)?;
    match word.3 {
        Sets::Value(takes) => {
            text.push_str("=[")?;
            write_quoted(text, word.2)?;
            writeln!(text, "]:{}:({})' \\", word.1, takes.values())
        }
        _ => {
            text.push('[')?;
            write_quoted(text, word.2)?;
            text.push_str("]' \\\n")
        }
    }
}

/// Appends a text between single quotes of a shell. A quote in it is left out.
fn write_quoted(text: &mut String, inside: &str) -> Result<(), AllocError> {
    for letter in inside.chars() {
        if letter != '\'' {
            text.push(letter)?;
        }
    }
    Ok(())
}

/// Appends a text, with a backslash before each such letter.
fn write_escaped(text: &mut String, inside: &str, escaped: char) -> Result<(), AllocError> {
    for letter in inside.chars() {
        if letter == escaped {
            text.push('\\')?;
        }
        text.push(letter)?;
    }
    Ok(())
}

/// Makes the text that tells why words are wrong.
pub(crate) fn why(alloc: Global, wrong: Wrong, words: &[String]) -> Result<String, AllocError> {
    match wrong {
        Wrong::Unknown(at) => format!(in alloc; "unknown word '{}'", word(words, at)),
        Wrong::NoValue(at) => format!(in alloc; "'{}' without a value", word(words, at)),
        Wrong::TakesNone(at) => format!(in alloc; "'{}' has a value", word(words, at)),
        Wrong::BadValue(at, takes) => {
            format!(in alloc; "'{}' is not {}", word(words, at), takes.says())
        }
        Wrong::TwoForms(at) => { format!(in alloc; "'{}' after another format", word(words, at)) }
    }
}

fn word(words: &[String], at: usize) -> &str {
    match words.get(at) {
        Some(word) => word.as_str(),
        None => "",
    }
}
