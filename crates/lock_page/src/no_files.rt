//! The files that a plan of the page includes: there are none.
use plan_answer::{FileFault, Files};
use std::alloc::Global;

/// No files: the page has the text of the plan alone.
#[derive(Drop)]
pub(crate) struct NoFiles;

impl Files for NoFiles {
    fn read(&mut self, _alloc: Global, _name: &str) -> Result<Vec<u8>, FileFault> {
        Err(FileFault::NoFiles)
    }
}
