//! A run into a stop or a circle.
ghost use Rattle.std.specs.Prelude.{◌<◌, IfOk};

use crate::answer::source::Source;
use lock_plan::{Plan, Step};
use std::alloc::{AllocError, Global};

/// A step, and the nodes before and after it.
#[derive(Clone, Copy)]
pub(crate) struct Made {
    pub(crate) step: Step,
    pub(crate) before: u128,
    pub(crate) after: u128,
}

/// The steps of a run, and the node after the last one.
#[derive(Drop)]
pub(crate) struct Run {
    pub(crate) steps: Vec<Made>,
    pub(crate) last: u128,
}

impl Run {
    /// Makes the run of these steps.
    pub(crate) fn new(source: &Source, trace: &[Step]) -> Result<Run, AllocError> {
        let mut steps = Vec::new(source.alloc);
        let mut node = source.plan.start();
        for step in trace {
            let before = node;
            node = stepped(source.alloc, source.plan, before, *step)?;
            steps.push(Made {
                step: *step,
                before,
                after: node,
            })?;
        }
        Ok(Run { steps, last: node })
    }

    /// Returns the node at a row. Row 0 is before the first step.
    pub(crate) fn node(&self, row: usize) -> u128 {
        match self.steps.get(row) {
            Some(made) => made.before,
            None => self.last,
        }
    }
}

/// Returns the node after a step, or the same node where its party does not have the step.
fn stepped(alloc: Global, plan: &Plan, node: u128, step: Step) -> Result<u128, AllocError>
    requires { node < plan.now.nodes }
    ensures { IfOk result (λ after. after < plan.now.nodes) }
{
    if step.party >= plan.parties() {
        return Ok(node);
    }
    match plan.after(alloc, node, step)? {
        Some(after) => Ok(after),
        None => Ok(node),
    }
}
