//! Words that other words replace.
use crate::line::Text;
use std::alloc::{AllocError, Global};

/// Words that others replace, each as long as the block is open in which it was bound.
#[derive(Drop)]
pub(crate) struct Replacements {
    /// For each word the one that replaces it.
    others: Vec<Option<usize>>,
    /// The words that are bound, each with the number of open blocks and the word that replaced it before.
    bound: Vec<(usize, usize, Option<usize>)>,
}

impl Replacements {
    /// Makes a table in which no word of a text is replaced.
    pub(crate) fn new(alloc: Global, text: &Text) -> Result<Replacements, AllocError> {
        Ok(Replacements {
            others: vec![in alloc; None; text.words.len()]?,
            bound: Vec::new(alloc),
        })
    }

    /// Returns the word that replaces a word, if there is one.
    pub(crate) fn word(&self, word: usize) -> Option<usize> {
        self.others.get(word).copied().flatten()
    }

    /// Replaces a word by another one, where so many blocks are open.
    pub(crate) fn bind(
        &mut self,
        depth: usize,
        word: usize,
        other: usize,
    ) -> Result<(), AllocError> {
        let before = self.word(word);
        self.bound.push((depth, word, before))?;
        self.set(word, Some(other));
        Ok(())
    }

    /// Releases the words that were bound where at least so many blocks were open.
    pub(crate) fn release(&mut self, depth: usize) {
        for _bound in 0..self.bound.len() {
            match self.bound.last().copied() {
                Some((at, word, before)) if at >= depth => {
                    self.set(word, before);
                    self.bound.pop();
                }
                _ => break,
            }
        }
    }

    fn set(&mut self, word: usize, other: Option<usize>) {
        if let Some(known) = self.others.get_mut(word) {
            *known = other;
        }
    }
}
