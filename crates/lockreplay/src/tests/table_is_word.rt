//! The table and the word answer alike.
use lock_script::{Which, replay};
use std::alloc::Global;
use std::test::Fail;

/// The lines that a script is made of, besides its first.
const LINES: [&str; 14] = [
    "read 1\n",
    "try_read 2\n",
    "upgradable_read 1\n",
    "write 2\n",
    "unlock 1 1\n",
    "unlock 1 2\n",
    "park 1 1\n",
    "resume 1 1\n",
    "try_upgrade 1 1\n",
    "downgrade 1 1\n",
    "downgrade_to_upgradable 1 1\n",
    "bump 1 2\n",
    "announce 2\n",
    "withdraw 2\n",
];

/// The script of the four lines that the digits of a number pick, to the base 14.
fn script_of(alloc: Global, number: usize) -> Result<String, Fail> {
    let mut script = String::from_str(alloc, "rwlock 3 2 0 0\n")?;
    let mut digits = number;
    for _ in 0..4 {
        script.push_str(LINES[digits % 14])?;
        digits /= 14;
    }
    Ok(script)
}

/// What a machine answers to a script.
fn answers_of(alloc: Global, which: Which, script: &str) -> Result<Vec<u8>, Fail> {
    let mut answers = Vec::new(alloc);
    replay(alloc, which, &mut script.as_bytes(), &mut answers)?;
    Ok(answers)
}

/// All lists of four lines, 38,416 of them.
#[test]
fn table_is_word(rt: HostRuntime) -> Result<(), Fail> {
    for number in 0..38_416 {
        let script = script_of(rt.alloc(), number)?;
        let table = answers_of(rt.alloc(), Which::Table, script.as_str())?;
        let word = answers_of(rt.alloc(), Which::Word, script.as_str())?;
        if table.as_slice() != word.as_slice() {
            return Err(Fail::new(script));
        }
    }
    Ok(())
}
