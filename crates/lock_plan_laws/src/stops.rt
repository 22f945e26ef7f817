//! What the worlds of a plan say of machines of guards.
ghost use Rattle.std.specs.Prelude.{◌+◌, ◌<◌, ◌^◌, List, length, IsTrue};
ghost use Rattle.lock_plan.specs.Checks.{fit_machines, none_fair};
ghost use Rattle.lock_plan.specs.Stops.{programs_of};
ghost use Rattle.lock_plan.specs.Circles.{NeverDeadlocks, IsShortestDeadlock};
ghost use Rattle.lock_plan_laws.specs.MachineStops.{MachinesNeverStop, IsShortestDeadlockOfMachines};

use lock_machine::Op;
use lock_plan::{Plan, Step};

/// What [`explore`](lock_plan::explore) answers about a plan holds of machines of guards.
///
/// Each machine has room for as many guards as the programs have places.
/// A machine numbers its guards, so a trace has fewer than 2^64 - 1 steps. Each trace of `explore` has, by its clause `short`.
/// If a plan never deadlocks, no run of its machines stops. A machine has no line, so it may go on in a stop of a plan with fair
/// locks. Counters, sleep, starts, joins and assertions follow the rules of the plan in both: a machine has none of them.
pub fn machines_stop_as_explored<T, O: Op<T>>(plan: &Plan)
    requires { IsTrue (fit_machines plan.now.locks.items) }
    ensures none { NeverDeadlocks plan.now.servers.items plan.now.locks.items (programs_of plan.now)
        → MachinesNeverStop O.meaning plan.now.servers.items plan.now.locks.items (programs_of plan.now) }
    ensures stop { IsTrue (none_fair plan.now.locks.items) → (trace : List Step) → length trace + 1 < 2 ^ 64
        → IsShortestDeadlock plan.now.servers.items plan.now.locks.items (programs_of plan.now) trace
        → IsShortestDeadlockOfMachines O.meaning plan.now.servers.items plan.now.locks.items (programs_of plan.now) trace }
{}
