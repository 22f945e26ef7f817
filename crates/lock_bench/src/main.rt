//! Times the locks over three raw locks, for the table of COMPARISON, which `bench/run` prints.
//!
//! `locks ROUNDS`: nanoseconds of a round of each lock on one thread. `four MILLIS`: what four threads make of a mutex over
//! each of them in so long.
#![tactic(auto)]

mod four;
mod locks;

use lock_mutex::Mutex;
use lock_raws::WordRaw;
use lock_raws_fair::FairRaw;
use lock_raws_monitor::TokenRaw;
use std::alloc::Global;
use std::rt::Env;
use std::sync::Wait;
use std::thread::Threads;
use std::time::Clock;
use std::{env, io};

fn main(rt: HostRuntime) -> io::Result<()> {
    let words: Vec<String> = env::args(&rt)?.skip(1).collect(rt.alloc())?;
    let number = words.get(1).and_then(|word| word.parse().ok());
    match words.first().map(|word| word.as_str()) {
        Some("locks") => locks::print(&rt, rt.alloc(), number.unwrap_or(1_000_000)),
        Some("four") => four_threads(&rt, rt.alloc(), number.unwrap_or(200)),
        _ => println!(rt; "usage: lock_bench locks ROUNDS | four MILLIS"),
    }
}

/// The lines of four threads on one mutex.
fn four_threads<R: Print + Clock + Wait + Threads + Sync + Copy>(
    rt: &R,
    alloc: Global,
    millis: u64,
) -> io::Result<()> {
    four::print::<R, Mutex<TokenRaw<R>, u64>>(rt, alloc, "TokenRaw", millis)?;
    four::print::<R, Mutex<WordRaw<R>, u64>>(rt, alloc, "WordRaw", millis)?;
    four::print::<R, Mutex<FairRaw<R>, u64>>(rt, alloc, "FairRaw", millis)
}
