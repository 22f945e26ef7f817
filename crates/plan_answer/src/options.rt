//! What is asked of an answer.

/// How a plan is read, and what its answer is written as.
#[derive(Clone, Copy, PartialEq, Eq, Debug)]
pub struct Options {
    pub form: Form,
    /// Whether the number of the plan's line is before each step and each wait.
    pub has_lines: bool,
    /// Whether the input is a plan as it is searched.
    pub is_core: bool,
}

/// What an answer is written as.
#[derive(Clone, Copy, PartialEq, Eq, Debug)]
pub enum Form {
    /// Lines of text.
    Text,
    /// Lines of text, and a drawing in text below them.
    Lanes,
    /// A picture in SVG.
    Svg,
    /// An object of JSON in a line.
    Json,
    /// A graph of the waits in DOT.
    Dot,
    /// Lines of text: an order of the locks, without a search.
    Order,
    /// The plan as it is searched, a line for each place.
    Core,
}
