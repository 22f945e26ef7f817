//! What lines of a plan come from: the calls that are written out, and the included files.
use crate::origin::LineAt;
use indexmap::IndexSet;
use std::alloc::{AllocError, Global};

/// The lines of the calls that are written out, and the names of the included files.
#[derive(Drop)]
pub struct Origins {
    /// Each call may be in another one before it.
    pub calls: Vec<LineAt>,
    files: IndexSet<String>,
}

impl Origins {
    pub fn new(alloc: Global) -> Origins {
        Origins {
            calls: Vec::new(alloc),
            files: IndexSet::new(alloc),
        }
    }

    /// Returns the name of the file with this number, or an empty one for the plan's own text.
    pub(crate) fn file(&self, number: usize) -> &str {
        let Some(before) = number.checked_sub(1) else {
            return "";
        };
        match self.files.get_index(before) {
            Some(name) => name.as_str(),
            None => "",
        }
    }

    /// Returns the number of a file, from 1, which is added if it is new.
    pub fn add_file(&mut self, alloc: Global, name: &str) -> Result<usize, AllocError> {
        let before = match self.files.get_index_of(name) {
            Some(before) => before,
            None => {
                let (before, _) = self.files.insert_full(String::from_str(alloc, name)?)?;
                before
            }
        };
        Ok(before.saturating_add(1))
    }

    /// Adds the calls and the files of others, where none are yet.
    pub fn add_all(&mut self, alloc: Global, others: &Origins) -> Result<(), AllocError> {
        self.calls.extend_from_slice(others.calls.as_slice())?;
        for name in others.files.as_slice() {
            self.add_file(alloc, name.as_str())?;
        }
        Ok(())
    }
}
