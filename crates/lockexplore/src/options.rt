//! The words of the program.
use plan_answer::Form;

/// A word of the program: the word, the name of the value that it takes, and its help.
#[derive(Clone, Copy)]
pub(crate) struct Word(
    pub(crate) &'static str,
    pub(crate) &'static str,
    pub(crate) &'static str,
    pub(crate) Sets,
);

/// What a word sets.
#[derive(Clone, Copy, PartialEq, Eq, Debug)]
pub(crate) enum Sets {
    Form(Form),
    Lines,
    Core,
    Quiet,
    Print(Print),
    /// The value after it.
    Value(Takes),
}

/// What is printed in place of an answer.
#[derive(Clone, Copy, PartialEq, Eq, Debug)]
pub(crate) enum Print {
    Help,
    Version,
    Man,
    Bash,
    Zsh,
}

/// A value that a word takes.
#[derive(Clone, Copy, PartialEq, Eq, Debug)]
pub(crate) enum Takes {
    Format,
    Memory,
    Seconds,
    Shell,
}

/// All words of the program.
pub(crate) static WORDS: [Word; 17] = [
    Word(
        "lanes",
        "",
        "also draws the steps into a deadlock, a column for each party",
        Sets::Form(Form::Lanes),
    ),
    Word("svg", "", "prints a picture in SVG", Sets::Form(Form::Svg)),
    Word(
        "json",
        "",
        "prints each answer as a line of JSON",
        Sets::Form(Form::Json),
    ),
    Word(
        "dot",
        "",
        "prints who waits for whom as a graph in DOT",
        Sets::Form(Form::Dot),
    ),
    Word(
        "order",
        "",
        "looks for an order of the locks instead, which holds for any number of parties",
        Sets::Form(Form::Order),
    ),
    Word(
        "core",
        "",
        "prints what would be searched, a line for each place",
        Sets::Form(Form::Core),
    ),
    Word(
        "lines",
        "",
        "has the number of the plan's line before each step and each wait",
        Sets::Lines,
    ),
    Word(
        "--format",
        "FORMAT",
        "is one of text, json, dot, svg and lanes",
        Sets::Value(Takes::Format),
    ),
    Word(
        "--core",
        "",
        "reads what `core` prints in place of a plan",
        Sets::Core,
    ),
    Word(
        "--memory",
        "BYTES",
        "limits the search, as 500M or 2G; the default is half of the machine's memory",
        Sets::Value(Takes::Memory),
    ),
    Word(
        "--seconds",
        "N",
        "ends a search after N seconds",
        Sets::Value(Takes::Seconds),
    ),
    Word(
        "--quiet",
        "",
        "prints no answer and no warning; the status says it",
        Sets::Quiet,
    ),
    Word("--help", "", "prints this help", Sets::Print(Print::Help)),
    Word(
        "--version",
        "",
        "prints the version, and whether this program is proved",
        Sets::Print(Print::Version),
    ),
    Word(
        "--man",
        "",
        "prints the page of the manual",
        Sets::Print(Print::Man),
    ),
    Word(
        "--completions",
        "SHELL",
        "prints the completions for bash or zsh",
        Sets::Value(Takes::Shell),
    ),
    Word(
        "--",
        "",
        "ends the words: what comes after it are files",
        Sets::Lines,
    ),
];

/// The values of `--format`, and those of `--completions`.
pub(crate) const FORMATS: &str = "text json dot svg lanes";

pub(crate) const SHELLS: &str = "bash zsh";

impl Takes {
    /// Returns the values, with blanks between them, where there are a few.
    pub(crate) fn values(self) -> &'static str {
        match self {
            Takes::Format => FORMATS,
            Takes::Shell => SHELLS,
            Takes::Memory | Takes::Seconds => "",
        }
    }

    /// Returns what a value is.
    pub(crate) fn says(self) -> &'static str {
        match self {
            Takes::Format => "text, json, dot, svg or lanes",
            Takes::Shell => "bash or zsh",
            Takes::Memory => "a number of bytes, as 500M or 2G",
            Takes::Seconds => "a number",
        }
    }
}
