//! Threads sleep on an event count until a notification.
use lock_test_support::answer::equal;
use lock_wake::EventCount;
use std::sync::Wait;
use std::test::Fail;
use std::time::{Clock, Duration, Instant};

/// Sleeps for a while though nobody notifies. Returns whether the while was over then.
fn sleeps_out<R: Wait + Clock>(rt: &R, events: &EventCount) -> Result<bool, Fail> {
    let time = Duration::from_millis(20);
    let start = Instant::now(rt)?;
    let registered = events.register(rt);
    events.sleep_for(rt, registered, time);
    Ok(matches!(start.elapsed(rt), Ok(slept) if slept >= time))
}

/// Whether a wait lasts that nobody notifies, how many waiters two notifications of one find while one is registered, and how
/// many one of all finds after that. The first one claims the wait, so the second one wakes nobody.
fn seen<R: Wait + Clock>(rt: &R, events: &EventCount) -> Result<(bool, u64, u64, u64), Fail> {
    let lasts = sleeps_out(rt, events)?;
    let registered = events.register(rt);
    let one = events.notify_one().waiters();
    let claimed = events.notify_one().waiters();
    events.sleep(rt, registered);
    Ok((lasts, one, claimed, events.notify_all().waiters()))
}

#[test]
fn a_notification_ends_a_sleep(rt: HostRuntime) -> Result<(), Fail> {
    let events = EventCount::new(rt.alloc())?;
    equal(seen(&rt, &events)?, (true, 1, 1, 0))
}
