//! The files that a plan includes.
use std::alloc::{AllocError, Global};
use thiserror::Error;

/// What reads the files that a plan includes.
pub trait Files {
    /// Reads a file whole.
    fn read(&mut self, alloc: Global, name: &str) -> Result<Vec<u8>, FileFault>;
}

/// Why an included file is not read. It shows as the text that a program prints.
#[derive(Clone, Copy, Debug, Error)]
pub enum FileFault {
    #[error("no such file")]
    NotFound,
    #[error("permission denied")]
    Denied,
    #[error("input failed")]
    InputFailed,
    /// The plan and its files together are longer than a text may be.
    #[error("input too long")]
    TooLong,
    #[error("more than 64 files")]
    TooMany,
    /// Where the plan is read are no files.
    #[error("there are no files here")]
    NoFiles,
    #[error("out of memory")]
    OutOfMemory,
}

impl From<AllocError> for FileFault {
    fn from(_fault: AllocError) -> FileFault {
        FileFault::OutOfMemory
    }
}
