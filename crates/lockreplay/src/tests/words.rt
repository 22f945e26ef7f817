//! What the program's words ask for.
use crate::{Request, asked};
use lock_script::Which;
use std::env::FillError;
use std::rt::Env;
use std::test::Fail;

/// The words after the program's name, and what they ask for: `None` is the usage line.
const REQUESTS: [(&[&[u8]], Option<Request>); 16] = [
    (&[b"table"], Some(Request::Replay(Which::Table))),
    (&[b"word"], Some(Request::Replay(Which::Word))),
    (&[b"steps"], Some(Request::Replay(Which::Steps))),
    (&[b"-h"], Some(Request::Help)),
    (&[b"--help"], Some(Request::Help)),
    (&[b"--version"], Some(Request::Version)),
    (&[b"--help", b"table"], None),
    (&[b"table", b"--version"], None),
    (&[], None),
    (&[b"Table"], None),
    (&[b"tables"], None),
    (&[b""], None),
    (&[b"table", b"table"], None),
    (&[b"table", b"word"], None),
    (&[b"\xff"], None),
    (&[b"table", b"\xff"], None),
];

/// A program's name and words, and an empty environment.
#[derive(Drop)]
struct Words<'a>(&'a [&'a [u8]]);

impl Env for Words<'_> {
    fn arg(&self, i: usize, buf: &mut [u8]) -> Result<usize, FillError> {
        let word = match i {
            0 => b"lockreplay".as_slice(),
            _ => self.0.get(i - 1).ok_or(FillError::NotPresent)?,
        };
        let room = buf.get_mut(..word.len()).ok_or(FillError::TooLong)?;
        room.copy_from_slice(word);
        Ok(word.len())
    }

    fn var(&self, _name: &str, _buf: &mut [u8]) -> Result<usize, FillError> {
        Err(FillError::NotPresent)
    }

    fn var_at(&self, _i: usize, _buf: &mut [u8]) -> Result<usize, FillError> {
        Err(FillError::NotPresent)
    }
}

#[test]
fn words_ask(rt: HostRuntime) -> Result<(), Fail> {
    for (row, (words, wanted)) in REQUESTS.into_iter().enumerate() {
        match asked(&(Words(words), rt.alloc())) {
            Ok(request) if request == wanted => {}
            _ => return Err(Fail::new(row)),
        }
    }
    Ok(())
}
