//! Worlds of a plan are runs of machines.
ghost use Rattle.lock_plan_laws.specs.Bridge.{RunsAreOfWorlds, WorldRunsAreOfMachines, StopsAreTheSame};

use lock_machine::Op;

/// The worlds of a plan are the runs of its programs on machines of guards, and both have the same stops.
///
/// A run has fewer than 2^64 steps, since a machine gives no two guards one number.
pub fn worlds_are_runs_of_machines<T, O: Op<T>>()
    ensures runs { RunsAreOfWorlds O.meaning }
    ensures worlds { WorldRunsAreOfMachines O.meaning }
    ensures stops { StopsAreTheSame O.meaning }
{}
