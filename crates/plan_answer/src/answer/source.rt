//! What the text of an answer is made from.
use crate::answer::line_mark::LineMark;
use lock_plan::Plan;
use plan_text::Names;
use std::alloc::Global;

/// A plan and its names, and the allocator of what its answer needs.
#[derive(Clone, Copy)]
pub(crate) struct Source<'a> {
    pub(crate) alloc: Global,
    pub(crate) plan: &'a Plan,
    pub(crate) names: &'a Names,
    /// What is before each step and each wait.
    pub(crate) mark: LineMark<'a>,
}
