//! Threads that share a raw lock: over a table, and on a word. Each test is on its own, so that each has its own time.
use super::cases::{ROUNDS, RUNS_OF_FOUR_READERS, RUNS_OF_ONE_READER, check_cases, contend};
use lock_raws::WordRaw;
use lock_raws_monitor::TokenRaw;
use std::test::Fail;

#[test]
fn threads_share_a_table(rt: HostRuntime) -> Result<(), Fail> {
    check_cases::<HostRuntime, TokenRaw<HostRuntime>>(&rt, rt.alloc())
}

#[test]
fn rounds_on_a_table(rt: HostRuntime) -> Result<(), Fail> {
    contend::<HostRuntime, TokenRaw<HostRuntime>>(&rt, rt.alloc(), &ROUNDS)
}

#[test]
fn short_runs_on_a_table(rt: HostRuntime) -> Result<(), Fail> {
    contend::<HostRuntime, TokenRaw<HostRuntime>>(&rt, rt.alloc(), &RUNS_OF_FOUR_READERS)
}

#[test]
fn short_runs_on_a_table_of_one_reader(rt: HostRuntime) -> Result<(), Fail> {
    contend::<HostRuntime, TokenRaw<HostRuntime>>(&rt, rt.alloc(), &RUNS_OF_ONE_READER)
}

#[test]
fn threads_share_a_word(rt: HostRuntime) -> Result<(), Fail> {
    check_cases::<HostRuntime, WordRaw<HostRuntime>>(&rt, rt.alloc())
}

#[test]
fn rounds_on_a_word(rt: HostRuntime) -> Result<(), Fail> {
    contend::<HostRuntime, WordRaw<HostRuntime>>(&rt, rt.alloc(), &ROUNDS)
}

#[test]
fn short_runs_on_a_word(rt: HostRuntime) -> Result<(), Fail> {
    contend::<HostRuntime, WordRaw<HostRuntime>>(&rt, rt.alloc(), &RUNS_OF_FOUR_READERS)
}

#[test]
fn short_runs_on_a_word_of_one_reader(rt: HostRuntime) -> Result<(), Fail> {
    contend::<HostRuntime, WordRaw<HostRuntime>>(&rt, rt.alloc(), &RUNS_OF_ONE_READER)
}
