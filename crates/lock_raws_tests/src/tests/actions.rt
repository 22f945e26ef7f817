//! What threads do with a raw lock, as lists.
use super::held::RawHold;
use super::meeting::Meeting;
use lock_guard::forget;
use lock_modes::Mode::{self, Exclusive, Shared};
use lock_raws::{LockCore, RawLock};
use lock_traits::RawRwLock;
use std::alloc::{AllocError, Global};
use std::sync::Wait;
use std::thread::{self, Threads};
use std::time::{Clock, Duration};

/// What a thread does next. It holds at most one token, and keeps what it holds at its end.
#[derive(Clone, Copy, PartialEq, Debug)]
pub enum ThreadAction {
    /// Acquires a token of the mode, blocking.
    Lock(Mode),
    /// Tries the mode, which must be admitted.
    Try(Mode),
    /// Tries the mode, which must be refused.
    Refused(Mode),
    /// Acquires an exclusive token by a try, or a shared one if the try is refused.
    WriteOrRead,
    /// Upgrades or downgrades the token, if it is not of the mode.
    To(Mode),
    /// Upgrades the token, by a try first.
    TryUpgrade,
    /// Upgrades the token by a try, which must be admitted.
    MustUpgrade,
    Bump,
    Unlock,
    /// Waits until all threads have come.
    Meet,
    /// All threads must come, within some turns.
    SeeAll,
    /// Sleeps until the others have tried in vain, and sleep.
    Sleep,
    Yield,
    /// Tries to read until a waiting writer refuses it.
    AwaitBar,
    /// Says that there was a write.
    Write,
    /// Writes if a try gives an exclusive token, which it releases.
    WriteIfFree,
    AwaitWrite,
    /// There must not have been a write.
    Unwritten,
    /// Reads again and again, next to other threads, until there was a write.
    ReadUntilWritten,
}

pub type Actions = &'static [ThreadAction];

/// A raw lock that threads share.
pub trait Acts: Sized + Drop {
    /// The permission to block.
    type Waiter: Wait;

    /// Makes the lists, one after another, so many times. Returns the first action that went wrong.
    fn act<K: Clock>(
        &self,
        clock: &K,
        meeting: &Meeting,
        lists: &[Actions],
        times: u32,
    ) -> Option<ThreadAction>;

    /// Returns whether a token is held, and whether an exclusive one is.
    fn is_held(&self) -> [bool; 2];
}

impl<C: LockCore> Acts for RawLock<C> {
    type Waiter = C::Waiter;

    fn act<K: Clock>(
        &self,
        clock: &K,
        meeting: &Meeting,
        lists: &[Actions],
        times: u32,
    ) -> Option<ThreadAction> {
        let mut held = RawHold::Nothing;
        let mut wrong = None;
        for _ in 0..times {
            for list in lists {
                for action in *list {
                    let (next, is_right) = acted(self, clock, meeting, held, *action);
                    held = next;
                    if wrong.is_none() && !is_right {
                        wrong = Some(*action);
                    }
                }
            }
        }
        unsafe { forget(held) };
        wrong
    }

    fn is_held(&self) -> [bool; 2] {
        [RawRwLock::is_locked(self), self.is_locked_exclusive()]
    }
}

/// Makes one action. Returns the token afterwards, and whether all went as it must.
fn acted<'a, C: LockCore, K: Clock>(
    raw: &'a RawLock<C>,
    clock: &K,
    meeting: &Meeting,
    held: RawHold<'a, C>,
    action: ThreadAction,
) -> (RawHold<'a, C>, bool) {
    match action {
        ThreadAction::Lock(mode) => {
            held.unlock();
            (RawHold::lock(raw, mode), true)
        }
        ThreadAction::Try(mode) => match RawHold::try_lock(raw, mode) {
            Some(token) => {
                held.unlock();
                (token, true)
            }
            None => (held, false),
        },
        ThreadAction::WriteOrRead => {
            held.unlock();
            match RawHold::try_lock(raw, Exclusive) {
                Some(token) => (token, true),
                None => (RawHold::lock(raw, Shared), true),
            }
        }
        ThreadAction::To(mode) => (held.change(mode), true),
        ThreadAction::TryUpgrade => (held.try_upgrade().0, true),
        ThreadAction::MustUpgrade => held.try_upgrade(),
        ThreadAction::Bump => (held.bump(), true),
        ThreadAction::Unlock => {
            held.unlock();
            (RawHold::Nothing, true)
        }
        other => (held, is_right(raw, clock, meeting, other)),
    }
}

/// Makes an action that leaves the thread's token as it is. Returns whether all went as it must.
fn is_right<C: LockCore, K: Clock>(
    raw: &RawLock<C>,
    clock: &K,
    meeting: &Meeting,
    action: ThreadAction,
) -> bool {
    match action {
        ThreadAction::Meet => meeting.meet(RawRwLock::waiter(raw)),
        ThreadAction::SeeAll => return meeting.sees_all(),
        ThreadAction::Refused(mode) => return is_refused(raw, mode),
        ThreadAction::Sleep => clock.sleep(Duration::from_millis(50)),
        ThreadAction::Yield => thread::yield_now(),
        ThreadAction::AwaitBar => return await_bar(raw),
        ThreadAction::Write => meeting.write(),
        ThreadAction::WriteIfFree => write_if_free(raw, meeting),
        ThreadAction::AwaitWrite => meeting.await_write(RawRwLock::waiter(raw)),
        ThreadAction::Unwritten => return !meeting.is_written(),
        ThreadAction::ReadUntilWritten => read_until_written(raw, meeting),
        _ => {}
    }
    true
}

/// Returns whether a try of the mode is refused.
fn is_refused<C: LockCore>(raw: &RawLock<C>, mode: Mode) -> bool {
    match RawHold::try_lock(raw, mode) {
        Some(token) => {
            token.unlock();
            false
        }
        None => true,
    }
}

fn write_if_free<C: LockCore>(raw: &RawLock<C>, meeting: &Meeting) {
    if let Some(token) = RawHold::try_lock(raw, Exclusive) {
        meeting.write();
        token.unlock();
    }
}

/// Returns whether a reader is refused at last.
fn await_bar<C: LockCore>(raw: &RawLock<C>) -> bool {
    for _ in 0..10_000_000u32 {
        match raw.try_lock_shared() {
            Some(shared) => raw.unlock_shared(shared),
            None => return true,
        }
        thread::yield_now();
    }
    false
}

fn read_until_written<C: LockCore>(raw: &RawLock<C>, meeting: &Meeting) {
    for _ in RawRwLock::waiter(raw).forever() {
        let shared = raw.lock_shared();
        let is_over = meeting.is_written();
        if !is_over {
            meeting.let_another_read();
        }
        raw.unlock_shared(shared);
        if is_over {
            return;
        }
    }
}

/// What the first of several threads does, what each other does, and how often.
pub type Work<'a> = (&'a [Actions], &'a [Actions], u32);

/// Returns the first action of so many threads that went wrong, and how many writes there were.
pub fn in_threads<R: Threads + Clock + Sync, L: Acts + Sync>(
    rt: &R,
    alloc: Global,
    lock: &L,
    threads: u32,
    (first, others, times): Work<'_>,
) -> Result<(Option<ThreadAction>, u64), AllocError> {
    let meeting = Meeting::of(threads);
    let wrong = thread::map_indices(
        rt,
        alloc,
        threads as usize,
        &|index| {
            let lists = if index == 0 { first } else { others };
            lock.act(rt, &meeting, lists, times)
        },
    )?;
    let mut first = None;
    for action in &wrong {
        first = first.or(*action);
    }
    Ok((first, meeting.writes()))
}
