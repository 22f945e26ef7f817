//! The raw locks that admit in the order of arrival: which thread is admitted when.
mod counts;
mod parts;
mod scene;

use counts::{count_beside_readers, count_in_four_threads};
use lock_modes::Mode::{Exclusive, Shared};
use lock_raws::RealTime;
use lock_raws_fair::{FairCore, FairRaw};
use lock_raws_monitor::TableArbiter;
use lock_test_support::answer::equal;
use scene::Role::{Nothing, Pass, Release, TimedWrite, Upgrade, Write};
use scene::{Actor, arrivals_beside_timed_calls, check_scenes};
use std::test::Fail;

type TimedFairCore = FairCore<TableArbiter, HostRuntime, RealTime>;

const IDLE: Actor = (0, 0, Nothing, 0);

/// How often the threads of a scene play it, and their digits in the order of admission.
const SCENES: [(&str, u32, [Actor; 5], u64); 4] = [
    (
        "arrival",
        200,
        [
            (3, 0, Write, 4),
            (1, 0, Write, 2),
            (2, 0, Write, 3),
            (0, 0, Write, 1),
            (4, 0, Release(Exclusive), 0),
        ],
        1234,
    ),
    (
        "release and acquire",
        500,
        [(1, 0, Pass, 2), (0, 0, Write, 1), IDLE, IDLE, IDLE],
        12,
    ),
    (
        "upgrade",
        100,
        [
            (0, 0, Upgrade, 1),
            (0, 0, Write, 2),
            (1, 0, Release(Shared), 0),
            IDLE,
            IDLE,
        ],
        12,
    ),
    (
        "two of four time out",
        50,
        [
            (0, 0, TimedWrite, 1),
            (1, 0, Write, 2),
            (2, 0, TimedWrite, 3),
            (3, 0, Write, 4),
            (4, 2, Release(Exclusive), 0),
        ],
        24,
    ),
];

#[test]
fn scenes(rt: HostRuntime) -> Result<(), Fail> {
    check_scenes::<HostRuntime, TimedFairCore>(&rt, rt.alloc(), &SCENES)
}

#[test]
fn four_threads_count(rt: HostRuntime) -> Result<(), Fail> {
    let count = count_in_four_threads::<HostRuntime, FairRaw<HostRuntime>>(&rt, rt.alloc(), rt)?;
    equal(count, 20_000)
}

#[test]
fn three_readers_that_never_pause_starve_no_writer(rt: HostRuntime) -> Result<(), Fail> {
    let count = count_beside_readers::<HostRuntime, FairRaw<HostRuntime>>(&rt, rt.alloc(), rt)?;
    equal(count, 100)
}

/// Behind the first ticket 63 more may leave. Later timed calls get no ticket, and end at their deadline too.
#[test]
fn timed_calls_without_a_ticket_end(rt: HostRuntime) -> Result<(), Fail> {
    let arrivals = arrivals_beside_timed_calls::<HostRuntime, TimedFairCore>(&rt, rt.alloc(), rt)?;
    equal(arrivals, 64)
}
