//! Readers, writers and memory that fail.
use lock_script::{ReplayFault, Which, replay};
use script_text::SCRIPT_LIMIT;
use std::alloc::Global;
use std::env::FillError;
use std::io::{self, ErrorKind, Read, Write};
use std::rt::Env;
use std::test::Fail;

/// Fails with this kind once, at one of its calls.
#[derive(Clone, Copy)]
struct Fails {
    calls: u64,
    at: u64,
    kind: ErrorKind,
}

impl Fails {
    /// The next call may go on.
    fn next(&mut self) -> io::Result<()> {
        let fails = self.calls == self.at;
        self.calls = self.calls.saturating_add(1);
        if fails {
            return Err(io::Error::from(self.kind));
        }
        Ok(())
    }
}

/// Gives the bytes of a script, at most so many a read.
#[derive(Drop)]
struct Slow<'a> {
    fails: Fails,
    left: &'a [u8],
    most: usize,
}

impl Read for Slow<'_> {
    fn read(&mut self, buf: &mut [u8]) -> io::Result<usize> {
        self.fails.next()?;
        let count = buf.len().min(self.most);
        self.left.read(&mut buf[..count])
    }
}

/// What a writer was asked.
#[derive(Clone, Copy, PartialEq, Eq, Debug)]
enum Asked {
    Write(usize),
    Flush,
}

/// Takes at most so many bytes a write, and writes down what it was asked.
#[derive(Drop)]
struct Narrow {
    fails: Fails,
    most: usize,
    asked: Vec<Asked>,
    kept: Vec<u8>,
}

impl Write for Narrow {
    fn write(&mut self, buf: &[u8]) -> io::Result<usize> {
        self.asked.push(Asked::Write(buf.len()))?;
        self.fails.next()?;
        let count = buf.len().min(self.most);
        self.kept.extend_from_slice(&buf[..count])?;
        Ok(count)
    }

    fn flush(&mut self) -> io::Result<()> {
        self.asked.push(Asked::Flush)?;
        self.fails.next()
    }
}

/// A call that fails with this kind.
fn failing(at: u64, kind: ErrorKind) -> Fails {
    Fails { calls: 0, at, kind }
}

/// A call that never fails.
fn never() -> Fails {
    failing(u64::MAX, ErrorKind::TimedOut)
}

/// Replays a script that is read at most `most` bytes a call, and returns what the writer, of at most `width` bytes a call,
/// was asked. The replay tells this and writes this.
fn check(
    alloc: Global,
    (left, reads, most): (&[u8], Fails, usize),
    (writes, width): (Fails, usize),
    wanted: Result<(), ReplayFault>,
    kept: &[u8],
) -> Result<Vec<Asked>, Fail> {
    let mut reader = Slow {
        fails: reads,
        left,
        most,
    };
    let mut writer = Narrow {
        fails: writes,
        most: width,
        asked: Vec::new(alloc),
        kept: Vec::new(alloc),
    };
    let told = replay(alloc, Which::Table, &mut reader, &mut writer);
    if told != wanted {
        return Err(Fail::new("told otherwise"));
    }
    if writer.kept.as_slice() != kept {
        return Err(Fail::new("written otherwise"));
    }
    Ok(writer.asked)
}

/// The writer was asked this.
fn check_asked(asked: Vec<Asked>, wanted: &[Asked]) -> Result<(), Fail> {
    if asked.as_slice() == wanted {
        Ok(())
    } else {
        Err(Fail::new("asked otherwise"))
    }
}

/// Of 38 bytes.
const SCRIPT: &[u8] = b"mutex 4 0 0\nlock 1\npark 1 1\nis_locked\n";

const ANSWERS: &[u8] = b"ok\nguard 1\nok\nno\n";

/// Nothing is written of a script that is not read to its end.
fn check_failing_reader(alloc: Global, at: u64) -> Result<(), Fail> {
    let reads = failing(at, ErrorKind::TimedOut);
    let wanted = Err(ReplayFault::InputFailed);
    let asked = check(alloc, (SCRIPT, reads, 10), (never(), 4), wanted, b"")?;
    check_asked(asked, &[])
}

/// A writer that fails once has a beginning of the answers.
fn check_failing_writer(alloc: Global, at: u64) -> Result<(), Fail> {
    let answers = b"ok\nguard 1\n";
    let calls = [
        Asked::Write(11),
        Asked::Write(7),
        Asked::Write(3),
        Asked::Flush,
    ];
    let wanted = if at == 4 {
        Ok(())
    } else {
        Err(ReplayFault::OutputFailed)
    };
    let kept = (at as usize).saturating_mul(4).min(answers.len());
    let asked = check(
        alloc,
        (b"mutex 4 0 0\nlock 1\n", never(), 64),
        (failing(at, ErrorKind::TimedOut), 4),
        wanted,
        &answers[..kept],
    )?;
    let made = (at as usize).saturating_add(1).min(calls.len());
    check_asked(asked, &calls[..made])
}

/// Interrupted calls are made again.
fn check_interrupted(alloc: Global, at: u64) -> Result<(), Fail> {
    let fails = failing(at, ErrorKind::Interrupted);
    check(alloc, (SCRIPT, fails, 10), (fails, 4), Ok(()), ANSWERS)?;
    Ok(())
}

/// A script can be read and its answers written a byte at a time.
fn check_bytes(alloc: Global) -> Result<(), Fail> {
    let asked = check(alloc, (SCRIPT, never(), 1), (never(), 1), Ok(()), ANSWERS)?;
    if asked.len() == ANSWERS.len() + 1 {
        Ok(())
    } else {
        Err(Fail::new("asked otherwise"))
    }
}

/// Nothing is written of a script with a bad line.
fn check_bad_script(alloc: Global) -> Result<(), Fail> {
    let script = b"mutex 4 0 0\nlock 1\nlock\n";
    let wanted = Err(ReplayFault::BadLine(3));
    let asked = check(alloc, (script, never(), 64), (never(), 4), wanted, b"")?;
    check_asked(asked, &[])
}

#[test]
fn readers_and_writers_may_fail(rt: HostRuntime) -> Result<(), Fail> {
    for at in 0..5 {
        check_failing_reader(rt.alloc(), at)?;
        check_failing_writer(rt.alloc(), at)?;
    }
    for at in 0..3 {
        check_interrupted(rt.alloc(), at)?;
    }
    check_bytes(rt.alloc())?;
    check_bad_script(rt.alloc())
}

/// A script of this length, of one bad line, is refused, and so many bytes of it are not read.
fn check_length(
    alloc: Global,
    length: usize,
    wanted: ReplayFault,
    left: usize,
) -> Result<(), Fail> {
    let script = vec![in alloc; b'x'; length]?;
    let mut reader = script.as_slice();
    let mut out = Vec::new(alloc);
    let told = replay(alloc, Which::Table, &mut reader, &mut out);
    if told == Err(wanted) && reader.len() == left && out.is_empty() {
        return Ok(());
    }
    Err(Fail::new(length))
}

const _: () = prove!(SCRIPT_LIMIT == 1_048_576);

#[test]
fn scripts_are_read_to_the_first_byte_past_the_limit(rt: HostRuntime) -> Result<(), Fail> {
    check_length(rt.alloc(), 1_048_576, ReplayFault::BadLine(1), 0)?;
    check_length(rt.alloc(), 1_048_577, ReplayFault::TooLong, 0)?;
    check_length(rt.alloc(), 1_048_677, ReplayFault::TooLong, 100)
}

/// The script has these answers, or lacks memory in a run that refuses some, and nothing is written.
fn answered_or_refused<R: Env + AllocGlobal>(
    rt: &R,
    which: Which,
    mut script: &[u8],
    answers: &[u8],
) -> Result<(), Fail> {
    let mut kept = [0u8; 64];
    let mut out = kept.as_mut_slice();
    let told = replay(rt.alloc(), which, &mut script, &mut out);
    let refuses = !matches!(rt.var("REFUSE", &mut [0u8; 32]), Err(FillError::NotPresent));
    let kept_answers = told.is_ok() && kept.starts_with(answers);
    let kept_nothing = refuses && told == Err(ReplayFault::OutOfMemory) && kept == [0u8; 64];
    if kept_answers || kept_nothing {
        return Ok(());
    }
    Err(Fail::new("answered otherwise"))
}

/// Also run with one allocation after another refused.
#[test]
fn refused_memory_replay(rt: HostRuntime) -> Result<(), Fail> {
    let script: &[u8] = b"rwlock 2 2 1 2\nread 1\nget 1 1 0\nspent\n";
    let answers: &[u8] = b"ok\nguard 1\nvalue 1\ncount 0\n";
    answered_or_refused(&rt, Which::Table, script, answers)?;
    answered_or_refused(&rt, Which::Word, script, answers)?;
    let script: &[u8] = b"world 2 2\nload 1\nexchange 1 shared\nword\n";
    let answers: &[u8] = b"ok\nloaded 0\ndone\ncount 1\n";
    answered_or_refused(&rt, Which::Steps, script, answers)
}
