//! The `Debug` and `Display` texts of the lock and of its guard.
use crate::reentrant_mutex::ReentrantMutex;
use crate::reentrant_mutex_guard::ReentrantMutexGuard;
use lock_guard::guard::{Locked, fmt_lock};
use lock_traits::RawMutex;
use std::fmt;
use std::fmt::{Debug, Display, Formatter};
use std::ops::Deref;

/// Prints the value while no party owns the lock.
impl<R: RawMutex, T: Debug> Debug for ReentrantMutex<R, T> {
    fn fmt<W: fmt::Write>(&self, f: &mut Formatter<W>) -> fmt::Result {
        if self.raw.is_owned() {
            return fmt_lock(f, "ReentrantMutex", &Locked);
        }
        fmt_lock(f, "ReentrantMutex", &self.value)
    }
}

impl<R: RawMutex, T: Debug> Debug for ReentrantMutexGuard<'_, R, T> {
    fn fmt<W: fmt::Write>(&self, f: &mut Formatter<W>) -> fmt::Result {
        self.deref().fmt(f)
    }
}

impl<R: RawMutex, T: Display> Display for ReentrantMutexGuard<'_, R, T> {
    fn fmt<W: fmt::Write>(&self, f: &mut Formatter<W>) -> fmt::Result {
        self.deref().fmt(f)
    }
}
