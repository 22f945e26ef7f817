//! A given list of steps: how many of them can be made, and whether they end in a stop or a circle.
ghost use Rattle.std.specs.Prelude.{◌≡◌, ◌<◌, IfOk, IfSome};
ghost use Rattle.lock_plan.specs.Worlds.{world_step};
ghost use Rattle.lock_plan.specs.Circles.{has_circle};
ghost use Rattle.lock_plan.specs.Stops.{world_of, world_if_any};
ghost use Rattle.lock_plan.specs.Played.{AreMade, IsEnding, IsPlayed};

use crate::plan::Plan;
use crate::program::Step;
use crate::sums::points_at;
use std::alloc::{AllocError, Global};
use step_search::Graph;

/// What a world is.
#[derive(Clone, Copy, PartialEq, Eq, Debug)]
pub enum Ending {
    /// Some parties are a circle.
    Circle,
    /// It is a stop, and no parties are a circle.
    Stop,
    /// It is neither.
    Neither,
}

/// What a list of steps does.
#[derive(Clone, Copy, PartialEq, Eq, Debug)]
pub struct Played {
    /// How many of the steps were made: all, or those before the first that its party does not have.
    pub made: usize,
    /// The node after them.
    pub node: u128,
    pub ending: Ending,
}

/// Makes these steps from the start, one after another, up to the first that its party does not have, and returns whether
/// they lead to a stop or a circle.
///
/// [`explore`](crate::explore) looks for steps that do.
pub fn play(alloc: Global, plan: &Plan, steps: &[Step]) -> Result<Played, AllocError>
    ensures { IfOk result (IsPlayed plan.now steps.now) }
{
    let (made, node) = made_of(alloc, plan, steps)?;
    let ending = plan.ending(alloc, node)?;
    Ok(Played { made, node, ending })
}

/// Returns how many of the steps can be made one after another from the start, and the node after them.
fn made_of(alloc: Global, plan: &Plan, steps: &[Step]) -> Result<(usize, u128), AllocError>
    ensures made { IfOk result (λ found. AreMade plan.now steps.now found.0 found.1) }
    ensures within { IfOk result (λ found. found.1 < plan.now.nodes) }
{
    let mut node = plan.start();
    let mut made = 0;
    while made < steps.len() {
        let step = &steps[made];
        let Some(next) = plan.step_if_any(alloc, node, *step)? else {
            return Ok((made, node));
        };
        node = next;
        made += 1;
    }
    Ok((made, node))
}

impl Plan {
    /// Returns the node after a step, or `None` where its party does not have it or there is no such party.
    fn step_if_any(&self, alloc: Global, node: u128, step: Step) -> Result<Option<u128>, AllocError>
        requires { node < self.now.nodes }
        ensures world { IfOk result (λ next. world_step self.now.locks.items (world_of self.now node) step ≡ world_if_any self.now next) }
        ensures within { IfOk result (λ next. IfSome next (λ n. n < self.now.nodes)) }
    {
        if step.party >= self.parties() {
            return Ok(None);
        }
        self.after(alloc, node, step)
    }

    /// Returns what the world of a node is.
    fn ending(&self, alloc: Global, node: u128) -> Result<Ending, AllocError>
        requires { node < self.now.nodes }
        ensures { IfOk result (IsEnding self.now.servers.items self.now.locks.items (world_of self.now node)) }
    {
        if self.has_circle_at(alloc, node)? {
            return Ok(Ending::Circle);
        }
        let mut leads = Vec::new(alloc);
        if self.look(node, &mut leads)? {
            return Ok(Ending::Stop);
        }
        Ok(Ending::Neither)
    }

    /// Returns whether some parties are a circle at a node.
    fn has_circle_at(&self, alloc: Global, node: u128) -> Result<bool, AllocError>
        ensures { IfOk result (λ has. has ≡ has_circle self.now.locks.items (world_of self.now node)) }
    {
        let points = points_at(alloc, self.tables.as_slice(), node)?;
        let row = points.as_slice();
        let all = vec![in alloc; true; row.len()]?;
        Ok(self.has_circle(row, all))
    }
}
