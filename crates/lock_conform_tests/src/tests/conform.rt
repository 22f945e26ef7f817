//! The raw lock that spins, tested by a script, and the words that choose a raw lock.
use lock_api::RawMutex;
use lock_choice::{Choice, RawChoice};
use lock_conform::{Manner, ParkBy, PlainRaw, parse, run_mutex};
use lock_examples::SpinLock;
use std::test::Fail;

/// Two parties acquire, change the value, park and release.
const SCRIPT: &str = "mutex 2 1 2
lock 1
try_lock 2
lock 2
add 1 1 0 5
park 1 1
try_lock_for 2
get 2 2 0
unlock_fair 2 2
resume 1 1
bump 1 1
unlock 1 1
is_locked
";

#[test]
fn a_spin_lock_answers_as_the_desk(rt: HostRuntime) -> Result<(), Fail> {
    for park_by in [ParkBy::Release, ParkBy::Unlocked] {
        let raw: SpinLock<HostRuntime> = RawMutex::new(rt.alloc(), rt)?;
        let script = parse(rt.alloc(), SCRIPT.as_bytes())?;
        let manner = Manner {
            park_by,
            is_arc: false,
        };
        let report = run_mutex(rt.alloc(), PlainRaw::over(raw), script, manner)?;
        assert_eq!(rt; report.difference, None);
        assert_eq!(rt; report.entries.len(), 12);
    }
    Ok(())
}

/// Scripts get the same answers over a table and over a word, so none shows which one a word chose.
#[test]
fn a_table_is_no_word(rt: HostRuntime) -> Result<(), Fail> {
    let words = [String::from_str(rt.alloc(), "table")?];
    let raw = Choice::of_words(&words).map(|choice| choice.raw);
    assert!(rt; matches!(raw, Some(RawChoice::Table)));
    Ok(())
}
