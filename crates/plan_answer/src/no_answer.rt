//! Why there is no answer.
use script_text::StreamFault;
use std::alloc::{AllocError, AllocFailed};
use step_search::SearchFault;
use thiserror::Error;

/// Why there is no answer to a plan. It shows as the text that a program prints.
#[derive(Debug, Drop, Error)]
pub enum NoAnswer {
    /// The text that tells bad lines.
    #[error("{0}")]
    Lines(String),
    #[error("too many states")]
    TooLarge,
    #[error("input too long")]
    TooLong,
    #[error("out of memory")]
    OutOfMemory,
    /// So many states were reached, which are more than the memory has room for.
    #[error("out of memory after {0} states")]
    Full(usize),
    /// So many states were reached when the time for the search ended.
    #[error("out of time after {0} states")]
    OutOfTime(usize),
    /// The time for a look for an order ended.
    #[error("out of time")]
    Late,
    #[error("input failed")]
    InputFailed,
    #[error("output failed")]
    OutputFailed,
}

impl From<AllocError> for NoAnswer {
    fn from(_fault: AllocError) -> NoAnswer {
        NoAnswer::OutOfMemory
    }
}

impl<T: Drop> From<AllocFailed<T>> for NoAnswer {
    fn from(_fault: AllocFailed<T>) -> NoAnswer {
        NoAnswer::OutOfMemory
    }
}

impl From<StreamFault> for NoAnswer {
    fn from(fault: StreamFault) -> NoAnswer {
        match fault {
            StreamFault::TooLong => NoAnswer::TooLong,
            StreamFault::OutOfMemory => NoAnswer::OutOfMemory,
            StreamFault::InputFailed => NoAnswer::InputFailed,
            StreamFault::OutputFailed => NoAnswer::OutputFailed,
        }
    }
}

impl From<SearchFault> for NoAnswer {
    fn from(fault: SearchFault) -> NoAnswer {
        match fault {
            SearchFault::Full(count) => NoAnswer::Full(count),
            SearchFault::OutOfTime(count) => NoAnswer::OutOfTime(count),
            SearchFault::OutOfMemory => NoAnswer::OutOfMemory,
        }
    }
}
