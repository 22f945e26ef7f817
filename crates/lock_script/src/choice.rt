//! The machine that runs a script.

/// The machine that runs a script.
#[derive(Clone, Copy, PartialEq, Eq, Debug)]
pub enum Which {
    /// A desk over a table of tokens.
    Table,
    /// A desk over a packed word.
    Word,
    /// A world: parties that make atomic steps on a packed word.
    Steps,
}
