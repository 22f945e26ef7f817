//! The condition loop over scripts.
use lock_mutex::{LoopEnd, Script, run_loop};
use lock_test_support::answer::equal;
use std::alloc::Global;
use std::sync::Wait;
use std::test::Fail;

/// How the loop over a script ends, and how many checks it makes, or `None` for an empty script.
fn ended<R: Wait>(waiter: &R, entries: Vec<(bool, bool)>) -> Option<(LoopEnd, u64)> {
    let mut script = Script::new(entries)?;
    let mut checks = 0u64;
    let end = run_loop(waiter, &mut script, |value: &mut bool| {
        checks = checks.wrapping_add(1);
        *value
    });
    Some((end, checks))
}

/// Scripts, and how they end.
const SCRIPTS: [(&[(bool, bool)], Option<(LoopEnd, u64)>); 5] = [
    (&[(true, false), (false, true)], Some((LoopEnd::False, 2))),
    (&[(true, false), (true, true)], Some((LoopEnd::TimedOut, 2))),
    (&[(false, false)], Some((LoopEnd::False, 1))),
    (&[(true, false)], Some((LoopEnd::RanOut, 1))),
    (&[], None),
];

#[test]
fn scripts_end_as_written(rt: HostRuntime) -> Result<(), Fail> {
    for (entries, wanted) in SCRIPTS {
        equal(ended(&rt, Vec::from_slice(rt.alloc(), entries)?), wanted)?;
    }
    Ok(())
}
