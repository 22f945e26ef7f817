//! What the page asks for, by numbers.

use lock_script::Which;
use plan_answer::Form;
use step_search::Budget;

/// No limit of time: the page ends a search by ending the worker that runs it.
#[derive(Drop)]
pub(crate) struct Endless;

impl Budget for Endless {
    ghost use Rattle.std.specs.Prelude.{false};

    ghost has_ended = { λ _. false };

    fn lasts(&mut self, _visited: usize) -> bool {
        true
    }
}

/// Returns the form with this number, or that of text.
pub(crate) fn form_of_number(number: u32) -> Form {
    match number {
        1 => Form::Lanes,
        2 => Form::Svg,
        3 => Form::Json,
        4 => Form::Dot,
        5 => Form::Order,
        6 => Form::Core,
        _ => Form::Text,
    }
}

/// Returns the machine with this number, or the table of tokens.
pub(crate) fn machine_of_number(number: u32) -> Which {
    match number {
        1 => Which::Word,
        2 => Which::Steps,
        _ => Which::Table,
    }
}
