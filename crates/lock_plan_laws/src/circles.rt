//! Circles never move.
ghost use Rattle.lock_plan_laws.specs.Circles.{CirclesNeverMove, CirclesAreSets, CircleMachinesNeverMove};

use lock_machine::Op;

/// Whatever the other parties do, a party of a circle never makes a step, and keeps what it holds.
///
/// Machines of guards, which have no circles, never make a call of such a party either. `sets` says that the search misses no
/// circle.
pub fn circles_never_move<T, O: Op<T>>()
    ensures worlds { CirclesNeverMove }
    ensures machines { CircleMachinesNeverMove O.meaning }
    ensures sets { CirclesAreSets }
{}
