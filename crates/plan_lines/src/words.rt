//! The words of a text, each with a number.
use crate::forms::{FORMS, Form};
use indexmap::IndexSet;
use itoa::Buffer;
use std::alloc::{AllocError, Global};

/// Names in the order in which they were added, each once, by the numbers of words.
pub type NameSet = IndexSet<usize>;

/// The words of a text, each once. The first are those that lines begin with, in the order of [`FORMS`].
#[derive(Drop)]
pub struct Words {
    texts: IndexSet<String>,
}

impl Words {
    /// Makes no words.
    pub fn new(alloc: Global) -> Words {
        Words {
            texts: IndexSet::new(alloc),
        }
    }

    /// Adds the words that lines begin with, before all others.
    pub(crate) fn add_forms(&mut self, alloc: Global) -> Result<(), AllocError> {
        for form in &FORMS {
            self.number(alloc, form.0)?;
        }
        Ok(())
    }

    pub(crate) fn len(&self) -> usize {
        self.texts.len()
    }

    /// Returns the word with this number, or an empty one.
    pub fn text(&self, number: usize) -> &str {
        match self.texts.get_index(number) {
            Some(text) => text.as_str(),
            None => "",
        }
    }

    /// Returns the number of a word, which is added if it is new.
    pub(crate) fn number(&mut self, alloc: Global, text: &str) -> Result<usize, AllocError> {
        match self.texts.get_index_of(text) {
            Some(number) => Ok(number),
            None => self.add(String::from_str(alloc, text)?),
        }
    }

    /// Returns the number of the name of a copy: `NAME.1` for the first copy of `NAME`.
    pub fn copy(&mut self, alloc: Global, name: &str, copy: u64) -> Result<usize, AllocError> {
        let mut text = String::from_str(alloc, name)?;
        text.push_str(".")?;
        text.push_str(Buffer::new().format(copy))?;
        self.add(text)
    }

    /// Returns the number of the name of any number of parties.
    pub fn any(&mut self, alloc: Global, name: usize) -> Result<usize, AllocError> {
        let mut text = String::from_str(alloc, self.text(name))?;
        text.push_str(".*")?;
        self.add(text)
    }

    fn add(&mut self, text: String) -> Result<usize, AllocError> {
        let (number, _) = self.texts.insert_full(text)?;
        Ok(number)
    }

    /// Returns the form of the lines that begin with this word, if there is one.
    pub fn form(&self, number: usize) -> Option<Form> {
        FORMS.get(number).copied()
    }

    pub fn is(&self, number: usize, text: &str) -> bool {
        self.text(number) == text
    }

    /// Returns whether a word is a name.
    pub(crate) fn is_name(&self, number: usize) -> bool {
        let text = self.text(number);
        !text.is_empty() && text.as_bytes().iter().all(|byte| is_name_byte(*byte))
    }

    /// Returns whether a word is the name of a party, or of any number of parties.
    pub fn is_core_name(&self, number: usize) -> bool {
        let text = self.text(number);
        let name = text.strip_suffix(".*").unwrap_or(text);
        !name.is_empty() && name.as_bytes().iter().all(|byte| is_name_byte(*byte))
    }

    /// Returns whether a word is a name that no word of a condition has.
    pub(crate) fn is_flag_name(&self, number: usize) -> bool {
        self.is_name(number) && !matches!(self.text(number), "not" | "and" | "or" | "timeout")
    }
}

fn is_name_byte(byte: u8) -> bool {
    byte.is_ascii_alphanumeric() || byte == b'_' || byte == b'-' || byte == b'.'
}
