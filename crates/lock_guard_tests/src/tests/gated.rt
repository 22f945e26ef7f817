//! A raw lock whose releases wait, and locks over it.
mod bump;
mod release;

use lock_modes::Fault;
use lock_test_support::wait_for_flag;
use lock_traits::{GuardSend, RawMutex, RawMutexFair};
use std::alloc::Global;
use std::clone::Clone;
use std::sync::Wait;
use std::sync::atomic::{AtomicBool, Ordering};

/// A raw lock that admits everything. Its releases wait until `is_locked` was called, which answers false once a plain
/// release ended.
#[derive(Drop)]
pub struct Gated<W: Wait + Clone + Drop> {
    waiter: W,
    is_open: AtomicBool,
    was_unlocked: AtomicBool,
}

impl<W: Wait + Clone + Drop> RawMutex for Gated<W> {
    type Guard = GuardSend;

    type Waiter = W;

    fn new(_alloc: Global, waiter: W) -> Result<Gated<W>, Fault> {
        Ok(Gated {
            waiter,
            is_open: AtomicBool::new(false),
            was_unlocked: AtomicBool::new(false),
        })
    }

    fn waiter(&self) -> &W {
        &self.waiter
    }

    fn lock(&self) -> GuardSend {
        GuardSend::new()
    }

    fn try_lock(&self) -> Option<GuardSend> {
        Some(GuardSend::new())
    }

    fn unlock(&self, _token: GuardSend) {
        wait_for_flag(&self.waiter, &self.is_open);
        self.was_unlocked.store(true, Ordering::SeqCst);
    }

    fn is_locked(&self) -> bool {
        self.is_open.store(true, Ordering::SeqCst);
        !self.was_unlocked.load(Ordering::SeqCst)
    }
}

/// A bump is by default such a release, and another acquisition.
impl<W: Wait + Clone + Drop> RawMutexFair for Gated<W> {
    fn unlock_fair(&self, _token: GuardSend) {
        wait_for_flag(&self.waiter, &self.is_open);
    }
}
