//! The laws of the encoding. Each is the contract of a function with an empty body.
ghost use Rattle.lock_c.specs.Packed.{PackingKeepsCalls, PackingKeepsEvents};
ghost use Rattle.lock_c.specs.Storing.{StoringKeepsSteps};

/// A call that is packed for C and unpacked again is the same call.
pub fn packing_keeps_calls()
    ensures { PackingKeepsCalls }
{}

/// A wait or a notification that is packed for C and unpacked again is the same one.
pub fn packing_keeps_events()
    ensures { PackingKeepsEvents }
{}

/// On a lock for fewer than 2^27 readers, 32 bits cut no number of a step: a step on the stored number is the step on the word.
pub fn storing_keeps_steps()
    ensures { StoringKeepsSteps }
{}
