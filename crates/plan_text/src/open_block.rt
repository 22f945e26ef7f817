//! The blocks that are open.
use plan_lines::{LineAt, LineFault, Refusal};
use std::alloc::{AllocError, Global};

/// The most blocks that may be open.
const DEEPEST: usize = 64;

/// An open block, by its part that is open.
#[derive(Clone, Copy)]
struct OpenBlock {
    part: OpenPart,
    /// The word with which it begins, and that line.
    word: &'static str,
    line: LineAt,
}

/// The part of a block that is open.
#[derive(Clone, Copy, PartialEq, Eq)]
pub(crate) enum OpenPart {
    /// The first part of a `try` or an `if`.
    First,
    Else,
    Loop,
    Either,
    Or,
    /// The lines of a function, below a call of it.
    Call,
    /// A function. The lines that it has are below the calls of it.
    Function,
}

/// The blocks that are open, the innermost last.
#[derive(Drop)]
pub(crate) struct OpenBlocks {
    blocks: Vec<OpenBlock>,
}

impl OpenBlocks {
    pub(crate) fn new(alloc: Global) -> OpenBlocks {
        OpenBlocks {
            blocks: Vec::new(alloc),
        }
    }

    /// Returns the word and the line with which the innermost block begins.
    pub(crate) fn innermost(&self) -> Option<(&'static str, LineAt)> {
        let block = self.blocks.last()?;
        Some((block.word, block.line))
    }

    pub(crate) fn has_loop(&self) -> bool {
        self.blocks.iter().any(|block| block.part == OpenPart::Loop)
    }

    /// Returns whether a function is open.
    pub(crate) fn has_function(&self) -> bool {
        match self.blocks.last() {
            Some(block) => block.part == OpenPart::Function,
            None => false,
        }
    }

    /// Refuses a line that would open too many blocks.
    pub(crate) fn have_room(&self, blocks: usize) -> Result<(), Refusal> {
        if self.blocks.len().saturating_add(blocks) > DEEPEST {
            return Err(Refusal::Bad(LineFault::TooDeep));
        }
        Ok(())
    }

    /// Opens a block.
    pub(crate) fn begin(
        &mut self,
        part: OpenPart,
        word: &'static str,
        line: LineAt,
    ) -> Result<(), Refusal> {
        self.have_room(1)?;
        self.add(OpenBlock { part, word, line })?;
        Ok(())
    }

    /// Turns the innermost block to its next part.
    pub(crate) fn turn(&mut self, to: OpenPart) -> Result<(), Refusal> {
        let fits = match self.blocks.last() {
            None => false,
            Some(block) => matches!(
                (block.part, to),
                (OpenPart::First, OpenPart::Else) | (OpenPart::Either | OpenPart::Or, OpenPart::Or)
            ),
        };
        match self.blocks.last_mut() {
            Some(block) if fits => {
                block.part = to;
                Ok(())
            }
            _ => Err(unfit(if to == OpenPart::Else {
                "'else' without 'try' or 'if'"
            } else {
                "'or' without 'either'"
            })),
        }
    }

    /// Ends the innermost block.
    pub(crate) fn end(&mut self) -> Result<(), Refusal> {
        match self.blocks.pop() {
            None => Err(unfit("'end' without a block")),
            Some(block) if block.part == OpenPart::Either => Err(unfit("'end' before 'or'")),
            Some(_) => Ok(()),
        }
    }

    /// Refuses a `leave` outside a loop, or in a function outside a loop of it.
    pub(crate) fn leave(&self) -> Result<(), Refusal> {
        let around = self.blocks.iter().rev().find(|block| matches!(
            block.part,
            OpenPart::Loop | OpenPart::Call
        ));
        match around {
            Some(block) if block.part == OpenPart::Loop => Ok(()),
            _ => Err(unfit("'leave' outside a loop")),
        }
    }

    /// Refuses a `return` outside a block.
    pub(crate) fn leave_all(&self) -> Result<(), Refusal> {
        if self.blocks.is_empty() {
            Err(unfit("'return' outside a block"))
        } else {
            Ok(())
        }
    }

    fn add(&mut self, block: OpenBlock) -> Result<(), AllocError> {
        self.blocks.push(block)?;
        Ok(())
    }
}

fn unfit(why: &'static str) -> Refusal {
    Refusal::Bad(LineFault::Unfit(why))
}
