//! Why a text is not read or written.
ghost use Rattle.std.specs.Prelude.{◌≡◌};
ghost use Rattle.script_text.specs.declared.fault.StreamFault.TheVariants.{OutOfMemory};

use std::alloc::AllocError;

/// Why a text was not read to its end, or not written whole.
#[derive(Clone, Copy, Debug, PartialEq, Eq)]
pub enum StreamFault {
    /// The text is longer than [`SCRIPT_LIMIT`](crate::SCRIPT_LIMIT).
    TooLong,
    OutOfMemory,
    InputFailed,
    OutputFailed,
}

impl From<AllocError> for StreamFault {
    ghost from_gives = { λ _ fault. fault ≡ OutOfMemory };

    fn from(_fault: AllocError) -> StreamFault {
        StreamFault::OutOfMemory
    }
}
