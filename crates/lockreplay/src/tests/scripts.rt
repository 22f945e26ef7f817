//! Scripts by hand.
use super::rows::{DESKS, GOOD, WORLDS};
use lock_script::{replay, which};
use std::alloc::Global;
use std::io;
use std::test::Fail;

/// The bytes of a text in a row.
fn bytes_of(alloc: Global, text: &str) -> io::Result<Vec<u8>> {
    let mut bytes = Vec::new(alloc);
    for byte in text.as_bytes() {
        bytes.push(match *byte {
            b';' => b'\n',
            b'~' => 255,
            other => other,
        })?;
    }
    Ok(bytes)
}

/// The machine that this word chooses tells of a script what its row says.
fn check(alloc: Global, word: &str, row: &str) -> Result<(), Fail> {
    let Some((script, wanted)) = row.split_once(" -> ") else {
        return Err(Fail::new("no row"));
    };
    let words = [String::from_str(alloc, word)?];
    let Some(machine) = which(&words) else {
        return Err(Fail::new("no machine"));
    };
    let text = bytes_of(alloc, script)?;
    let mut out = Vec::new(alloc);
    let is_told = match replay(alloc, machine, &mut text.as_slice(), &mut out) {
        Ok(()) => out.as_slice() == bytes_of(alloc, wanted)?.as_slice(),
        Err(fault) => out.is_empty() && format!(in alloc; "{fault};")?.as_str() == wanted,
    };
    if is_told {
        return Ok(());
    }
    Err(Fail::new(format_args!("{word}: {row}")))
}

/// A script whose first bad line comes after this many good ones is refused with its number.
fn check_far_down(alloc: Global, good: usize) -> Result<(), Fail> {
    let mut row = String::from_str(alloc, "mutex 1 0 0;")?;
    for _ in 1..good {
        row.push_str("spent;")?;
    }
    row.push_str("spend;spent;spend; -> bad line ")?;
    let number = format!(in alloc; "{};", good.saturating_add(1))?;
    row.push_str(number.as_str())?;
    check(alloc, "table", row.as_str())?;
    check(alloc, "word", row.as_str())
}

#[test]
fn scripts_have_answers(rt: HostRuntime) -> Result<(), Fail> {
    for row in DESKS.split('\n') {
        check(rt.alloc(), "table", row)?;
        check(rt.alloc(), "word", row)?;
    }
    for row in WORLDS.split('\n') {
        check(rt.alloc(), "steps", row)?;
    }
    for good in GOOD {
        check_far_down(rt.alloc(), good)?;
    }
    Ok(())
}
