//! What the worlds of a plan say of the lines of fair locks.
ghost use Rattle.std.specs.Prelude.{Bool, List};
ghost use Rattle.lock_plan.specs.declared.lock.PlanLock.{PlanLock};
ghost use Rattle.lock_plan.specs.declared.program.ProgramPlace.{ProgramPlace};
ghost use Rattle.lock_plan_laws.specs.Lines.{LinesStopAsWorlds};

/// Runs in which parties wait in the lines of fair locks lead to the worlds of the plan, and are stuck in the same ones.
///
/// In a line, the first party alone acquires, and none does while an upgrade waits.
pub fn lines_stop_as_worlds()
    ensures { (servers : List Bool) (locks : List PlanLock) (programs : List (List ProgramPlace)) → LinesStopAsWorlds servers locks programs }
{}
