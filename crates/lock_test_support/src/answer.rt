//! Checks of what a call answered: a value, want of memory, and texts.
ghost use Rattle.std.specs.Prelude.{◌≡◌, true, false, MatchResult};

use lock_modes::Fault;
use std::alloc::Global;
use std::env::FillError;
use std::fmt::{Debug, Display};
use std::rt::Env;
use std::test::Fail;

/// Err with both where they differ.
pub fn equal<T: PartialEq + Debug + Drop>(found: T, wanted: T) -> Result<(), Fail>
    ensures { MatchResult result (λ _. T.eq found wanted ≡ true) (λ _. T.eq found wanted ≡ false) }
{
    if found == wanted {
        Ok(())
    } else {
        Err(Fail::from((found, wanted)))
    }
}

/// Whether this run refuses an allocation. `.ci/refused-memory` sets `REFUSE`, and no other run does.
fn refuses_memory<R: Env>(rt: &R) -> bool {
    let mut number = [0_u8; 32];
    !matches!(rt.var("REFUSE", &mut number), Err(FillError::NotPresent))
}

/// Checks that the call lacked memory, in a run that refuses some.
pub fn lacks_memory<R: Env>(rt: &R, fault: Fault) -> Result<(), Fail> {
    equal((fault, refuses_memory(rt)), (Fault::OutOfMemory, true))
}

/// Checks that the call gave this answer, or that it lacked memory.
pub fn answers_or_lacks_memory<R: Env, T: PartialEq + Debug + Drop>(
    rt: &R,
    answer: Result<T, Fault>,
    wanted: T,
) -> Result<(), Fail> {
    match answer {
        Ok(answer) => equal(answer, wanted),
        Err(fault) => lacks_memory(rt, fault),
    }
}

/// Whether the value's `Debug` text is this one. It is not where memory is refused.
pub fn debug_is<T: Debug>(alloc: Global, value: &T, wanted: &str) -> bool {
    match format!(in alloc; "{value:?}") {
        Ok(text) => text.as_str() == wanted,
        Err(_) => false,
    }
}

/// Whether both texts of the value, which ends, are this one.
pub fn texts_are<T: Debug + Display + Drop>(alloc: Global, value: T, wanted: &str) -> bool {
    match format!(in alloc; "{value}") {
        Ok(text) => text.as_str() == wanted && debug_is(alloc, &value, wanted),
        Err(_) => false,
    }
}
