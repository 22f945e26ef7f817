//! Parties that never wait.
ghost use Rattle.lock_plan_laws.specs.NeverWaits.{NeverWaitingPartiesGoOn};

/// In each world to which some interleaving leads, a party that never waits has a step, and waits behind nobody.
///
/// So no such world is stuck. [`Plan::never_waits`](lock_plan::Plan::never_waits) finds these parties without a search.
pub fn never_waiting_parties_go_on()
    ensures { NeverWaitingPartiesGoOn }
{}
