//! Why a replay ends early.
ghost use Rattle.std.specs.Prelude.{◌≡◌};
ghost use Rattle.lock_script.specs.declared.fault.ReplayFault.TheVariants.{OutOfMemory};

use script_text::StreamFault;
use std::alloc::{AllocError, AllocFailed};
use thiserror::Error;

/// Why a replay ended before all answers were written. The texts are those of the program.
#[derive(Clone, Copy, Debug, PartialEq, Eq, Error)]
pub enum ReplayFault {
    /// The first line, counted from 1, that is not in the format.
    #[error("bad line {0}")]
    BadLine(u64),
    #[error("input too long")]
    TooLong,
    #[error("out of memory")]
    OutOfMemory,
    #[error("input failed")]
    InputFailed,
    #[error("output failed")]
    OutputFailed,
}

impl From<StreamFault> for ReplayFault {
    ghost use Rattle.lock_script.specs.Faults.{of_stream};

    ghost from_gives = { λ from fault. fault ≡ of_stream from };

    fn from(fault: StreamFault) -> ReplayFault {
        match fault {
            StreamFault::TooLong => ReplayFault::TooLong,
            StreamFault::OutOfMemory => ReplayFault::OutOfMemory,
            StreamFault::InputFailed => ReplayFault::InputFailed,
            StreamFault::OutputFailed => ReplayFault::OutputFailed,
        }
    }
}

impl From<AllocError> for ReplayFault {
    ghost from_gives = { λ _ fault. fault ≡ OutOfMemory };

    fn from(_fault: AllocError) -> ReplayFault {
        ReplayFault::OutOfMemory
    }
}

impl<T: Drop> From<AllocFailed<T>> for ReplayFault {
    ghost from_gives = { λ _ fault. fault ≡ OutOfMemory };

    fn from(_fault: AllocFailed<T>) -> ReplayFault {
        ReplayFault::OutOfMemory
    }
}
