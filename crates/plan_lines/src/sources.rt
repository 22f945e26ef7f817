//! The texts of a plan.
use indexmap::IndexSet;
use std::alloc::{AllocError, Global};

/// The texts of a plan by the names of their files: its own text, and then those of the files that it includes.
#[derive(Drop)]
pub struct Sources {
    names: IndexSet<String>,
    texts: Vec<Vec<u8>>,
    /// How many bytes the texts have together.
    bytes: usize,
}

impl Sources {
    /// Makes no texts.
    pub fn new(alloc: Global) -> Sources {
        Sources {
            names: IndexSet::new(alloc),
            texts: Vec::new(alloc),
            bytes: 0,
        }
    }

    /// Adds the text of a file that is not there, first the plan's own, and returns its number.
    pub fn add(&mut self, name: String, text: Vec<u8>) -> Result<usize, AllocError> {
        self.bytes = self.bytes.saturating_add(text.len());
        self.texts.push(text)?;
        let (number, _) = self.names.insert_full(name)?;
        Ok(number)
    }

    /// Returns the text of the file with this name, or an empty one.
    pub fn text_of(&self, name: &str) -> &[u8] {
        match self.number(name) {
            Some(number) => self.text(number),
            None => &[],
        }
    }

    /// Returns the text with this number. That of the plan itself has the number 0.
    pub fn text(&self, number: usize) -> &[u8] {
        match self.texts.get(number) {
            Some(text) => text.as_slice(),
            None => &[],
        }
    }

    /// Returns the number of the file with this name.
    pub(crate) fn number(&self, name: &str) -> Option<usize> {
        self.names.get_index_of(name)
    }

    /// Returns the name of the file with this number, or an empty one.
    pub(crate) fn name(&self, number: usize) -> &str {
        match self.names.get_index(number) {
            Some(name) => name.as_str(),
            None => "",
        }
    }

    /// Returns how many texts there are.
    pub(crate) fn count(&self) -> usize {
        self.texts.len()
    }

    /// Returns how many bytes the texts have together.
    pub(crate) fn bytes(&self) -> usize {
        self.bytes
    }
}
