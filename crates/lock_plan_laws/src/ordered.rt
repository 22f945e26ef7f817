//! Plans with ranks never deadlock: ranks of the locks, or of the waits.
ghost use Rattle.std.specs.Prelude.{◌≡◌, ℕ, true, List};
ghost use Rattle.lock_plan.specs.declared.lock.PlanLock.{PlanLock};
ghost use Rattle.lock_plan.specs.declared.program.ProgramPlace.{ProgramPlace};
ghost use Rattle.lock_plan_laws.specs.Holders.{SomeHolderDoesNotWait};
ghost use Rattle.lock_plan_laws.specs.OrderChecks.{is_ordered};
ghost use Rattle.lock_plan_laws.specs.OrderExamples.{OrderExamples};
ghost use Rattle.lock_plan_laws.specs.Ranks.{IsOrdered, OrderedPlansNeverDeadlock, OrderedMachinesNeverStop};
ghost use Rattle.lock_plan_laws.specs.WaitRanks.{RankedPlansNeverDeadlock, RankedMachinesNeverStop};

use lock_machine::Op;

/// No run of a plan in the order of ranks leads into a stop or a circle, for any number of parties, and no run of its machines
/// of guards into a stop.
///
/// `test` decides whether a program keeps the order. `examples` shows that neither rule of it can be dropped.
pub fn ordered_plans_never_stop<T, O: Op<T>>()
    ensures worlds { OrderedPlansNeverDeadlock }
    ensures machines { OrderedMachinesNeverStop O.meaning }
    ensures test { (rank : ℕ → ℕ) (locks : List PlanLock) (program : List ProgramPlace)
        → is_ordered rank locks program ≡ true → IsOrdered rank locks program }
    ensures examples { OrderExamples }
{}

/// No run of a plan leads into a stop or a circle where the waits have ranks, and no run of its machines of guards into a stop.
///
/// The ranks rise from each wait to each wait that may hold it up. One wait may hold up another one only if both can be at one
/// time, and if the first holds the lock in a mode that may refuse the other. So two waits never hold up each other if a gate is
/// around both, if both are reads, or if they are of one party.
pub fn plans_without_a_circle_never_stop<T, O: Op<T>>()
    ensures worlds { RankedPlansNeverDeadlock }
    ensures machines { RankedMachinesNeverStop O.meaning }
{}

/// Among threads that wait above all that they hold, some holder does not wait.
pub fn some_holder_does_not_wait()
    ensures { SomeHolderDoesNotWait }
{}
