//! From a reader's plan to the text of an answer.
use crate::answer::{answer_text, json_lines, order_text};
use crate::bad_text::bad_text;
use crate::ending::ending_warning;
use crate::hold_bytes::left_beside_holds;
use crate::no_answer::NoAnswer;
use crate::options::{Form, Options};
use crate::order_budget::OrderBudget;
use crate::verdict::Verdict;
use lock_plan::explore;
use lock_plan_order::{OrderFault, find_order};
use plan_lines::{BadLine, Files, Sources, TextFault};
use plan_text::{Core, read_core, read_plan};
use script_text::read_script;
use std::alloc::{AllocError, AllocFailed, Global};
use std::io::Read;
use step_search::Budget;

/// An answer: what it says, its text, a warning of the plan, and how many states a search reached.
#[derive(Drop)]
pub struct Answer {
    pub verdict: Verdict,
    pub text: String,
    pub warning: Option<String>,
    /// 0 without a search.
    pub states: usize,
}

impl Answer {
    /// Makes an answer without a warning and a search.
    fn plain(verdict: Verdict, text: String) -> Answer {
        Answer {
            verdict,
            text,
            warning: None,
            states: 0,
        }
    }
}

/// Reads a plan from a file of this name and from those that it includes, searches it or looks for an order of its locks, and
/// makes the answer. A searched plan may get a warning.
///
/// # Errors
///
/// In this order: a fault of reading, those of [`read_plan`] or [`read_core`], the first call that can never be made, too many
/// combinations, no memory or time for the search or the look for an order, no memory for the text.
pub fn explore_plan<R: Read, B: Budget, F: Files>(
    alloc: Global,
    file: &str,
    options: Options,
    memory: usize,
    budget: &mut B,
    files: &mut F,
    reader: &mut R,
) -> Result<Answer, NoAnswer> {
    let mut sources = Sources::new(alloc);
    sources.add(String::from_str(alloc, file)?, read_script(alloc, reader)?)?;
    match answer_of(alloc, options, memory, budget, &mut sources, files) {
        Ok(answer) => Ok(answer),
        Err(Fault::Search(why)) => Err(why),
        Err(Fault::Text(TextFault::TooLarge)) => Err(NoAnswer::TooLarge),
        Err(Fault::Text(TextFault::TooLong)) => Err(NoAnswer::TooLong),
        Err(Fault::Text(TextFault::OutOfMemory)) => Err(NoAnswer::OutOfMemory),
        Err(Fault::Text(TextFault::Lines(lines))) => {
            let text = bad_text(alloc, file, &sources, lines.as_slice())?;
            Err(NoAnswer::Lines(text))
        }
        Err(Fault::PlanLines(lines)) => {
            let text = bad_text(alloc, file, &Sources::new(alloc), lines.as_slice())?;
            Err(NoAnswer::Lines(text))
        }
    }
}

/// Why there is no answer: by the text, or by the search.
#[derive(Drop)]
enum Fault {
    Text(TextFault),
    /// Lines of the plan of a core, which are not those of the text.
    PlanLines(Vec<BadLine>),
    Search(NoAnswer),
}

impl From<TextFault> for Fault {
    fn from(fault: TextFault) -> Fault {
        Fault::Text(fault)
    }
}

impl From<NoAnswer> for Fault {
    fn from(fault: NoAnswer) -> Fault {
        Fault::Search(fault)
    }
}

/// Makes the answer to the plan of a text.
fn answer_of<B: Budget, F: Files>(
    alloc: Global,
    options: Options,
    memory: usize,
    budget: &mut B,
    sources: &mut Sources,
    files: &mut F,
) -> Result<Answer, Fault> {
    let mut core = if options.is_core {
        read_core(alloc, sources.text(0))?
    } else {
        read_plan(alloc, sources, files)?
    };
    if options.form == Form::Core {
        return core_answer(alloc, &core);
    }
    let answer = if options.form == Form::Order || core.names.has_many() {
        order_answer(alloc, options.form, memory, budget, &core)
    } else {
        search_answer(alloc, options, memory, budget, &mut core)
    };
    match answer {
        Err(Fault::Text(TextFault::Lines(lines))) if options.is_core => {
            Err(Fault::PlanLines(lines))
        }
        answer => answer,
    }
}

/// Makes the text of a plan as it is searched.
fn core_answer(alloc: Global, core: &Core) -> Result<Answer, Fault> {
    match core.text(alloc) {
        Ok(text) => Ok(Answer::plain(Verdict::NeverStops, text)),
        Err(_) => Err(Fault::Search(NoAnswer::OutOfMemory)),
    }
}

/// Searches a plan.
fn search_answer<B: Budget>(
    alloc: Global,
    options: Options,
    memory: usize,
    budget: &mut B,
    core: &mut Core,
) -> Result<Answer, Fault> {
    let left = left_of(memory, core)?;
    let named = core.take_plan(alloc)?;
    let explored = match explore(alloc, &named.plan, left, budget) {
        Ok(explored) => explored,
        Err(fault) => return Err(Fault::Search(NoAnswer::from(fault))),
    };
    match answer_text(alloc, options.form, options.has_lines, &named, &explored) {
        Ok(text) => Ok(Answer {
            verdict: Verdict::of(&explored),
            text,
            warning: ending_warning(alloc, &named),
            states: explored.visited,
        }),
        Err(_) => Err(Fault::Search(NoAnswer::OutOfMemory)),
    }
}

/// Returns how many bytes are left beside the holds.
fn left_of(memory: usize, core: &Core) -> Result<usize, NoAnswer> {
    match left_beside_holds(memory, core.locks.len(), &core.programs) {
        Some(left) => Ok(left),
        None => Err(NoAnswer::OutOfMemory),
    }
}

/// Looks for an order of the locks of a plan.
fn order_answer<B: Budget>(
    alloc: Global,
    form: Form,
    memory: usize,
    budget: &mut B,
    core: &Core,
) -> Result<Answer, Fault> {
    let left = left_of(memory, core)?;
    let mut within = OrderBudget::new(budget, left);
    match order_found(alloc, form, core, &mut within) {
        Ok(answer) => Ok(answer),
        Err(Unordered::NoMemory) => Err(Fault::Search(NoAnswer::OutOfMemory)),
        Err(Unordered::Order(OrderFault::Plan(fault))) => {
            Err(Fault::Text(core.fault(alloc, fault)))
        }
        Err(Unordered::Order(OrderFault::OutOfTime)) => Err(Fault::Search(within.no_answer())),
    }
}

/// Why no order was looked for to the end.
#[derive(Drop)]
enum Unordered {
    NoMemory,
    Order(OrderFault),
}

impl From<AllocError> for Unordered {
    fn from(_fault: AllocError) -> Unordered {
        Unordered::NoMemory
    }
}

impl<T: Drop> From<AllocFailed<T>> for Unordered {
    fn from(_fault: AllocFailed<T>) -> Unordered {
        Unordered::NoMemory
    }
}

/// Looks for an order within a budget.
fn order_found<B: Budget>(
    alloc: Global,
    form: Form,
    core: &Core,
    within: &mut B,
) -> Result<Answer, Unordered> {
    let programs = core.programs.all(alloc)?;
    let mut many = Vec::new(alloc);
    for party in 0..core.names.parties() {
        many.push(core.names.is_many(party))?;
    }
    let locks = core.locks.as_slice();
    let order = match find_order(alloc, locks, programs.as_slice(), many.as_slice(), within) {
        Ok(order) => order,
        Err(fault) => return Err(Unordered::Order(fault)),
    };
    let verdict = Verdict::of_order(&order);
    let text = order_text(alloc, &core.names, &core.programs, &order)?;
    if form == Form::Json {
        let object = json_lines(alloc, text.as_str())?;
        return Ok(Answer::plain(verdict, object));
    }
    Ok(Answer::plain(verdict, text))
}
